//! A framer: finds the frames of a stream.

ghost use Rattle.std.specs.Prelude.{◌≡◌, ◌+◌};
ghost use Rattle.rh_pdu.specs.Feeding.{capped};

use crate::fault::HeadFault;
use crate::feed::{Feed, Put};
use crate::filling::put_frame;
use crate::header::{GREATEST_FRAG, HEADER_LEN};
use std::marker::Model;

/// Finds the frames of a stream that comes in pieces of any length.
///
/// It holds at most one unfinished frame, in an array of its own. Feed it a piece; after
/// `Feed::Frame` take the frame by `frame`, and feed what the frame left of the piece. After
/// `Feed::Fault` it answers that fault to every piece.
#[derive(Drop)]
pub struct Framer {
    buf: [u8; GREATEST_FRAG],
    held: usize,
    whole: usize,
    place: u64,
    fault: Option<HeadFault>,
}

impl Model for Framer {
    ghost use Rattle.std.specs.Prelude.{◌≤◌, take};
    ghost use Rattle.rh_pdu.specs.Header.{greatest_length};
    ghost use Rattle.rh_pdu.specs.Feeding as feeding;

    ghost Value = { feeding.FramerState };

    ghost view = { λ a. record {
      rest = take a.held a.buf;
      frame = take a.whole a.buf;
      place = a.place;
      fault = a.fault;
    } };

    ghost invariant = { λ a. (a.held ≤ greatest_length) × (a.whole ≤ greatest_length)
        × feeding.IsSoundBy (take a.held a.buf) a.fault };
}

impl Framer {
    ghost use Rattle.std.specs.Prelude.{◌≤◌, length};
    ghost use Rattle.rh_pdu.specs.Header.{greatest_length};
    ghost use Rattle.rh_pdu.specs.Feeding.{new_framer, Fed, IsSound};

    /// A framer before the first byte of the stream.
    pub fn new() -> Framer
        ensures { result ≡ new_framer }
    {
        Framer {
            buf: [0; GREATEST_FRAG],
            held: 0,
            whole: 0,
            place: 0,
            fault: None,
        }
    }

    /// The frame that the last `feed` made whole; empty after any other answer, and before the
    /// first.
    pub fn frame(&self) -> &[u8]
        ensures { result.now ≡ self.now.frame }
    {
        &self.buf[..self.whole]
    }

    /// How many bytes of an unfinished frame are held: 0 after a frame, 16 after a fault, 8,192 at
    /// most.
    pub fn held(&self) -> usize
        ensures rest { result ≡ length self.now.rest }
        ensures fits { result ≤ greatest_length }
    {
        self.held
    }

    /// Adds the piece up to the end of the first frame.
    ///
    /// Answers `Frame` where a frame is whole, `Fault` where the header at hand breaks a rule, and
    /// from then on, and else `Need`. What `Frame` left of the piece is to be fed again. A place
    /// above 2^64 - 1 bytes is told as that number.
    #[inline(always)]
    pub fn feed(&mut self, piece: &[u8]) -> Feed
        ensures sound { IsSound self.old }
        ensures fed { Fed result self.old self.new piece.now }
    {
        self.whole = 0;
        if let Some(fault) = self.fault {
            return Feed::Fault {
                place: self.place,
                fault,
            };
        }
        let held = self.held;
        match put_frame(&mut self.buf, held, piece) {
            Put::Part(now) => {
                self.held = now;
                Feed::Need
            }
            Put::Bad(fault) => {
                self.held = HEADER_LEN;
                self.fault = Some(fault);
                Feed::Fault {
                    place: self.place,
                    fault,
                }
            }
            Put::Whole(len) => {
                self.held = 0;
                self.whole = len;
                self.place = place_behind(self.place, len);
                Feed::Frame {
                    used: len - held,
                    len,
                }
            }
        }
    }
}

/// The place behind a frame, which stands still at the end of its type.
fn place_behind(place: u64, len: usize) -> u64
    ensures { result ≡ capped (place + len) }
{
    place.saturating_add(len as u64)
}
