//! The lines of a capture with their bytes where they stand.

ghost use Rattle.std.specs.Prelude.{◌≡◌, OnOk, take};
ghost use Rattle.rh_http.specs.Reading.{greatest_head};
ghost use Rattle.rh_audit.specs.Pieces.{all_seen};
ghost use Rattle.rh_audit.specs.Captures.{carried};

use rh_http::got::GREATEST_HEAD;
use rh_sig::Pipe;
use std::alloc::AllocError;
use std::marker::Model;

/// A line, whose bytes stand elsewhere.
#[derive(Clone, Copy)]
pub(crate) struct Piece<'a> {
    pub(crate) tag: u64,
    pub(crate) pipe: Pipe,
    pub(crate) bytes: &'a [u8],
}

/// The bytes of a pipe in lines, piece by piece.
#[derive(Drop)]
pub(crate) struct Pieces<'a> {
    lines: &'a [Piece<'a>],
    pipe: Pipe,
}

impl<'a> Model for Pieces<'a> {
    ghost use Rattle.std.specs.Prelude.{length};
    ghost use Rattle.rh_audit.specs.PiecesLeft as left;

    ghost Value = { left.PiecesLeft };

    ghost view = { λ a. left.left_in a.pipe a.lines.now };
}

impl<'a> Pieces<'a> {
    ghost use Rattle.std.specs.Prelude.{◌≡◌, ◌<◌, ◌++◌, [], MatchOption, IfOk, OnOk, OnSome, drop, take};
    ghost use Rattle.rh_audit.specs.PiecesLeft.{left_in};

    /// All bytes of the pipe.
    pub(crate) fn new(lines: &'a [Piece<'a>], pipe: Pipe) -> Pieces<'a>
        ensures { result ≡ left_in pipe lines.now }
    {
        Pieces { lines, pipe }
    }

    /// The bytes of the next line of the pipe; `None` where none is left.
    pub(crate) fn next_piece(&mut self) -> Option<&'a [u8]>
        ensures bytes { MatchOption result ((self.old.bytes ≡ []) × (self.new.bytes ≡ []))
            (λ piece. self.old.bytes ≡ piece.now ++ self.new.bytes) }
        ensures fewer { OnSome result (self.new.lines < self.old.lines) }
    {
        while let [line, behind @ ..] = self.lines {
            self.lines = behind;
            if line.pipe == self.pipe {
                return Some(line.bytes);
            }
        }
        None
    }

    /// Goes on behind so many bytes, of which the piece is the front; gives what is left of the
    /// piece that it comes to.
    pub(crate) fn skip(&mut self, piece: &'a [u8], count: usize) -> &'a [u8]
        ensures { result.now ++ self.new.bytes ≡ drop count (piece.now ++ self.old.bytes) }
    {
        let mut piece = piece;
        let mut left = count;
        'pieces: loop {
            if left <= piece.len() {
                let (_, behind) = piece.split_at(left);
                return behind;
            }
            left -= piece.len();
            match self.next_piece() {
                Some(next) => piece = next,
                None => return &[],
            }
        }
    }

    /// As `skip`, and puts the bytes that it passes into a room.
    ///
    /// Fails where there is no memory for them.
    pub(crate) fn put(
        &mut self,
        piece: &'a [u8],
        count: usize,
        room: &mut Vec<u8>,
    ) -> Result<&'a [u8], AllocError>
        ensures room { OnOk result (room.new.items ≡ take count (piece.now ++ self.old.bytes)) }
        ensures left { IfOk result (λ left. left.now ++ self.new.bytes
            ≡ drop count (piece.now ++ self.old.bytes)) }
    {
        room.clear();
        let mut piece = piece;
        let mut left = count;
        'pieces: loop {
            if left <= piece.len() {
                let (front, behind) = piece.split_at(left);
                room.extend_from_slice(front)?;
                return Ok(behind);
            }
            room.extend_from_slice(piece)?;
            left -= piece.len();
            match self.next_piece() {
                Some(next) => piece = next,
                None => return Ok(&[]),
            }
        }
    }
}

/// Puts the first bytes of the pipe into a room, at most 16,384.
///
/// Fails where there is no memory for them.
pub(crate) fn put_front(
    lines: &[Piece<'_>],
    pipe: Pipe,
    room: &mut Vec<u8>,
) -> Result<(), AllocError>
    ensures bytes { OnOk result (room.new.items
        ≡ take greatest_head (carried pipe (all_seen lines.now))) }
{
    Pieces::new(lines, pipe).put(&[], GREATEST_HEAD, room)?;
    Ok(())
}
