//! The bytes of a stream, from one place to the next.

use crate::pieces::{Piece, Pieces};
use crate::place::Place;
use rh_sig::Pipe;
use std::alloc::{AllocError, Global};
use std::marker::Model;

/// What is left of the bytes of a pipe, and the RPC PDU that ends there: it is lent from the line
/// in which it stands, or from a room where it stands in more than one.
#[derive(Drop)]
pub(crate) struct Cursor<'a> {
    pieces: Pieces<'a>,
    piece: &'a [u8],
    at: usize,
    lent: &'a [u8],
    in_room: bool,
    room: Vec<u8>,
}

impl<'a> Model for Cursor<'a> {
    ghost use Rattle.std.specs.Prelude.{◌++◌, if◌then◌else◌};
    ghost use Rattle.rh_audit.specs.Cursors as left;

    ghost Value = { left.CursorLeft };

    ghost view = { λ a. record {
      at = a.at;
      bytes = a.piece.now ++ a.pieces.bytes;
      pdu = if a.in_room then a.room.items else a.lent.now;
    } };
}

impl<'a> Cursor<'a> {
    ghost use Rattle.std.specs.Prelude.{◌≡◌, ◌+◌, ◌≤◌, [], OnOk};
    ghost use Rattle.rh_audit.specs.Captures.{carried};
    ghost use Rattle.rh_audit.specs.Cursors as left;
    ghost use Rattle.rh_audit.specs.Pieces.{all_seen};

    /// A cursor over no bytes.
    pub(crate) fn new(alloc: Global) -> Cursor<'a>
        ensures { result ≡ record { at = 0; bytes = []; pdu = [] } }
    {
        Cursor {
            pieces: Pieces::new(&[], Pipe::IsD),
            piece: &[],
            at: 0,
            lent: &[],
            in_room: false,
            room: Vec::new(alloc),
        }
    }

    /// The PDU that the last `find` found; empty before the first.
    pub(crate) fn pdu(&self) -> &[u8]
        ensures { result.now ≡ self.now.pdu }
    {
        if self.in_room {
            self.room.as_slice()
        } else {
            self.lent
        }
    }

    /// Begins with the bytes of a pipe in lines.
    pub(crate) fn enter(&mut self, lines: &'a [Piece<'a>], pipe: Pipe)
        ensures at { self.new.at ≡ 0 }
        ensures bytes { self.new.bytes ≡ carried pipe (all_seen lines.now) }
    {
        self.pieces = Pieces::new(lines, pipe);
        self.piece = &[];
        self.at = 0;
    }

    /// Finds the PDU at a place, and goes on behind it.
    ///
    /// Fails where there is no memory for a PDU that stands in more than one line.
    pub(crate) fn find(&mut self, place: Place) -> Result<(), AllocError>
        requires { self.old.at ≤ place.at }
        ensures at { self.new.at ≡ place.at + place.len }
        ensures found { OnOk result (self.new ≡ left.behind place self.old) }
    {
        let piece = self.pieces.skip(self.piece, place.at - self.at);
        self.at = place.at + place.len;
        self.in_room = piece.len() < place.len;
        if self.in_room {
            self.piece = self.pieces.put(piece, place.len, &mut self.room)?;
            return Ok(());
        }
        let (lent, behind) = piece.split_at(place.len);
        self.lent = lent;
        self.piece = behind;
        Ok(())
    }
}
