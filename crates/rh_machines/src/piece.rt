//! Pieces of a leg's bytes, which travel in events and replies.

ghost use Rattle.std.specs.Prelude.{◌≡◌, ◌≤◌, take, min};

use std::alloc::{AllocError, Global};
use std::marker::Model;

/// The most bytes of a piece.
pub const PIECE_ROOM: usize = 32768;

/// The room of a piece, on the heap.
pub type PieceRoom = Box<[u8; PIECE_ROOM]>;

/// A room for pieces.
///
/// Fails only for want of memory.
pub fn piece_room(alloc: Global) -> Result<PieceRoom, AllocError> {
    Ok(Box::new(alloc, [0; PIECE_ROOM])?)
}

/// Bytes that came on a leg or go there, 32,768 at most. Contracts see the bytes.
#[derive(Drop)]
pub struct Piece {
    len: u16,
    room: PieceRoom,
}

impl Model for Piece {
    ghost use Rattle.std.specs.Prelude.{ℕ, List, take, ◌≤◌};

    ghost Value = { List ℕ };

    ghost view = { λ p. take p.len p.room.value };

    ghost invariant = { λ p. p.len ≤ 32768 };
}

impl Piece {
    /// The first `len` bytes of a room.
    pub fn new(len: usize, room: PieceRoom) -> Piece
        requires { len ≤ 32768 }
        ensures { result ≡ take len room.value }
    {
        Piece {
            len: len as u16,
            room,
        }
    }

    /// Its bytes.
    pub fn bytes(&self) -> &[u8]
        ensures bytes { result.now ≡ self.now }
    {
        &self.room[..usize::from(self.len)]
    }

    /// Its room, for the next piece.
    pub fn into_room(self) -> PieceRoom {
        self.room
    }
}

/// A room that comes with a draw. Contracts see how many bytes may be drawn into it.
#[derive(Drop)]
pub struct DrawRoom {
    most: u16,
    room: PieceRoom,
}

impl Model for DrawRoom {
    ghost use Rattle.std.specs.Prelude.{ℕ, ◌≤◌};

    ghost Value = { ℕ };

    ghost view = { λ r. r.most };

    ghost invariant = { λ r. r.most ≤ 32768 };
}

impl DrawRoom {
    /// A room for `most` bytes, or for 32,768 where that is fewer.
    pub fn new(most: u16, room: PieceRoom) -> DrawRoom
        ensures { result ≡ min most 32768 }
    {
        DrawRoom {
            most: most.min(PIECE_ROOM as u16),
            room,
        }
    }

    /// How many bytes may be drawn, and the room.
    pub fn into_parts(self) -> (usize, PieceRoom)
        ensures most { result.0 ≡ self }
        ensures fits { result.0 ≤ 32768 }
    {
        (usize::from(self.most), self.room)
    }
}
