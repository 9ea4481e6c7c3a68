//! The frames of a stream that comes in pieces.

use crate::pieces::{Piece, Pieces};
use rh_pdu::{Feed, Framer};
use rh_sig::Pipe;
use std::marker::Model;

/// What stands next in a stream.
#[derive(Clone, Copy)]
pub(crate) enum Cut {
    /// A frame.
    Frame,
    /// Bytes that are no whole frame, or none.
    End,
    /// A header that breaks a rule.
    Bad,
}

/// The frames of the bytes that are left.
#[derive(Drop)]
pub(crate) struct Frames<'a> {
    pieces: Pieces<'a>,
    piece: &'a [u8],
    framer: Framer,
}

impl<'a> Model for Frames<'a> {
    ghost use Rattle.std.specs.Prelude.{◌++◌};
    ghost use Rattle.rh_audit.specs.FramesLeft as left;

    ghost Value = { left.FramesLeft };

    ghost view = { λ a. record {
      bytes = a.framer.rest ++ (a.piece.now ++ a.pieces.bytes);
      frame = a.framer.frame;
    } };
}

impl<'a> Frames<'a> {
    ghost use Rattle.std.specs.Prelude.{◌≡◌, ◌++◌, drop};
    ghost use Rattle.rh_audit.specs.Captures.{carried};
    ghost use Rattle.rh_audit.specs.Pieces.{all_seen};
    ghost use Rattle.rh_audit.specs.FramesLeft.{IsCut, left_at};

    /// The frames behind the first `count` bytes of the pipe.
    pub(crate) fn behind(lines: &'a [Piece<'a>], pipe: Pipe, count: usize) -> Frames<'a>
        ensures { result ≡ left_at (drop count (carried pipe (all_seen lines.now))) }
    {
        let mut pieces = Pieces::new(lines, pipe);
        let piece = pieces.skip(&[], count);
        Frames {
            pieces,
            piece,
            framer: Framer::new(),
        }
    }

    /// The frame that the last `next_frame` found; empty before the first.
    pub(crate) fn frame(&self) -> &[u8]
        ensures { result.now ≡ self.now.frame }
    {
        self.framer.frame()
    }

    /// Takes the next frame off the front of the bytes that are left.
    pub(crate) fn next_frame(&mut self) -> Cut
        ensures { IsCut result self.old self.new }
    {
        'pieces: loop {
            match self.framer.feed(self.piece) {
                Feed::Frame { used, .. } => {
                    let (_, behind) = self.piece.split_at(used);
                    self.piece = behind;
                    return Cut::Frame;
                }
                Feed::Fault { .. } => {
                    self.piece = &[];
                    return Cut::Bad;
                }
                Feed::Need => match self.pieces.next_piece() {
                    Some(piece) => self.piece = piece,
                    None => {
                        self.piece = &[];
                        return Cut::End;
                    }
                },
            }
        }
    }
}
