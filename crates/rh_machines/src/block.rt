//! Blocks: PDUs that travel in events and replies.

ghost use Rattle.std.specs.Prelude.{◌≡◌, ◌≤◌, length, take, min};

use std::alloc::{AllocError, Global};
use std::marker::Model;

/// The most bytes of a block: those of the largest PDU.
pub const BLOCK_ROOM: usize = 8192;

/// The room of a block, on the heap.
pub type BlockRoom = Box<[u8; BLOCK_ROOM]>;

/// A room for blocks.
///
/// Fails only for want of memory.
pub fn block_room(alloc: Global) -> Result<BlockRoom, AllocError> {
    Ok(Box::new(alloc, [0; BLOCK_ROOM])?)
}

/// A PDU, 8,192 bytes at most. Contracts see the bytes.
#[derive(Drop)]
pub struct Block {
    len: u16,
    room: BlockRoom,
}

impl Model for Block {
    ghost use Rattle.std.specs.Prelude.{ℕ, List, take, ◌≤◌};

    ghost Value = { List ℕ };

    ghost view = { λ b. take b.len b.room.value };

    ghost invariant = { λ b. b.len ≤ 8192 };
}

impl Block {
    /// The first `len` bytes of a room, or all where it has fewer.
    pub fn new(len: usize, room: BlockRoom) -> Block
        ensures bytes { result ≡ take (min len 8192) room.value }
        ensures whole { length room.value ≡ 8192 }
    {
        Block {
            len: len.min(room[..].len()) as u16,
            room,
        }
    }

    /// A PDU, copied into a room.
    pub fn of(pdu: &[u8], room: BlockRoom) -> Block
        requires { length pdu.now ≤ 8192 }
        ensures { result ≡ pdu.now }
    {
        let mut room = room;
        let (front, _) = room.split_at_mut(pdu.len());
        front.copy_from_slice(pdu);
        Block {
            len: pdu.len() as u16,
            room,
        }
    }

    /// Its bytes.
    pub fn bytes(&self) -> &[u8]
        ensures bytes { result.now ≡ self.now }
        ensures fits { length result.now ≤ 8192 }
    {
        &self.room[..usize::from(self.len)]
    }

    /// Its room, for the next block.
    pub fn into_room(self) -> BlockRoom {
        self.room
    }
}

/// A room that comes with a take. Contracts see nothing of it.
#[derive(Drop)]
pub struct TakeRoom {
    room: BlockRoom,
}

impl Model for TakeRoom {
    ghost Value = { Unit {0} };

    ghost view = { λ _. tt };
}

impl TakeRoom {
    /// A room for the next PDU.
    pub fn new(room: BlockRoom) -> TakeRoom {
        TakeRoom { room }
    }

    /// The room.
    pub fn into_room(self) -> BlockRoom {
        self.room
    }
}
