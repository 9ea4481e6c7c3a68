//! The stream that the bytes of one tag and pipe are.

ghost use Rattle.std.specs.Prelude.{◌≡◌, ◌≤◌, IfOk};
ghost use Rattle.rh_http.specs.Reading.{greatest_head};
ghost use Rattle.rh_audit.specs.Captures.{carried};
ghost use Rattle.rh_audit.specs.Openings as openings;
ghost use Rattle.rh_audit.specs.Pieces.{all_seen};
ghost use Rattle.rh_audit.specs.Pipes as pipes;
ghost use Rattle.rh_audit.specs.Streams as seen;

use crate::frames::{Cut, Frames};
use crate::opening::{Begins, Opening, begins_with, opening_of};
use crate::packet::{Met, meet};
use crate::pieces::{Piece, put_front};
use crate::place::Place;
use rh_sig::Pipe;
use std::alloc::AllocError;
use std::marker::Model;

/// What comes next of a stream.
#[derive(Clone, Copy)]
pub(crate) enum Next {
    /// A frame that counts, and where it stands.
    Frame { met: Met, place: Place },
    /// Nothing is left but perhaps a part of a frame.
    End,
    /// It is broken behind so many bytes.
    Broken(u64),
}

/// What is left of a stream.
#[derive(Drop)]
pub(crate) struct Stream<'a> {
    frames: Frames<'a>,
    pipe: Pipe,
    begins: bool,
    place: usize,
    broken: Option<u64>,
}

impl<'a> Model for Stream<'a> {
    ghost use Rattle.std.specs.Prelude.{◌+◌, ◌<◌, ◌^◌, length};
    ghost use Rattle.rh_audit.specs.StreamsLeft as left;

    ghost Value = { left.StreamLeft };

    ghost view = { λ a. record {
      pipe = a.pipe;
      stream = left.stream_left a.broken a.pipe a.begins a.place a.frames.bytes;
      frame = a.frames.frame;
      place = a.place;
      bytes = a.frames.bytes;
    } };

    ghost invariant = { λ a. a.place + length a.frames.bytes < 2 ^ 64 };
}

/// Where a stream towards the server begins with a frame, or an RTS PDU may stand.
fn stands(pipe: Pipe, begins: bool, met: &Met) -> bool
    ensures { result ≡ seen.stands pipe begins met.now }
{
    let free = !begins || !is_upward(pipe);
    match met {
        Met::Nameless => false,
        Met::Pdu => free,
        Met::Packet(packet) => free || packet.first().is_some(),
    }
}

/// Whether the pipe is towards the server.
fn is_upward(pipe: Pipe) -> bool
    ensures { result ≡ pipes.is_upward pipe }
{
    matches!(pipe, Pipe::CiU | Pipe::IsU | Pipe::CoU | Pipe::OsU)
}

/// What the bytes of a pipe begin with. The room is for the first of them.
///
/// Fails where there is no memory for those.
fn opening(lines: &[Piece<'_>], pipe: Pipe, room: &mut Vec<u8>) -> Result<Opening, AllocError>
    ensures opening { IfOk result (λ told.
        told ≡ openings.opening pipe (carried pipe (all_seen lines.now))) }
    ensures most { IfOk result (λ told. openings.extent told ≤ greatest_head) }
{
    let begins = begins_with(pipe);
    if let Begins::Frames = begins {
        return Ok(Opening::Opens(0));
    }
    put_front(lines, pipe, room)?;
    Ok(opening_of(room.as_slice(), begins))
}

impl<'a> Stream<'a> {
    ghost use Rattle.std.specs.Prelude.{◌≡◌, ◌+◌, ◌<◌, ◌≤◌, ◌^◌, length, true, IfOk};
    ghost use Rattle.rh_http.specs.Reading.{greatest_head};
    ghost use Rattle.rh_audit.specs.Openings.{extent};
    ghost use Rattle.rh_audit.specs.Streams.{opened, stream};
    ghost use Rattle.rh_audit.specs.Captures.{carried};
    ghost use Rattle.rh_audit.specs.Pieces.{all_seen};
    ghost use Rattle.rh_audit.specs.StreamsLeft.{IsBegun, IsNext, stream_left};

    /// The stream of the pipe in these lines, of fewer than 2^63 bytes. The room is for its head.
    ///
    /// Fails where there is no memory for the head.
    pub(crate) fn begin(
        lines: &'a [Piece<'a>],
        pipe: Pipe,
        room: &mut Vec<u8>,
    ) -> Result<Stream<'a>, AllocError>
        requires { length (carried pipe (all_seen lines.now)) < 2 ^ 63 }
        ensures { IfOk result (λ begun. let bytes = carried pipe (all_seen lines.now) in
            IsBegun pipe bytes (stream pipe bytes) begun) }
    {
        Ok(Stream::behind(lines, pipe, opening(lines, pipe, room)?))
    }

    /// What stands behind such an opening of the stream.
    fn behind(lines: &'a [Piece<'a>], pipe: Pipe, opening: Opening) -> Stream<'a>
        requires short { length (carried pipe (all_seen lines.now)) < 2 ^ 63 }
        requires most { extent opening ≤ greatest_head }
        ensures { let bytes = carried pipe (all_seen lines.now) in
            IsBegun pipe bytes (opened pipe bytes opening) result }
    {
        match opening {
            Opening::Waits => Stream::at(Frames::behind(&[], pipe, 0), pipe, 0, None),
            Opening::Opens(len) => { Stream::at(Frames::behind(lines, pipe, len), pipe, len, None) }
            Opening::Fails(place) => {
                Stream::at(Frames::behind(&[], pipe, 0), pipe, 0, Some(place as u64))
            }
        }
    }

    /// The frames that count; and the place at which the stream is broken, where that is known.
    fn at(frames: Frames<'a>, pipe: Pipe, place: usize, broken: Option<u64>) -> Stream<'a>
        requires { place + length frames.bytes < 2 ^ 64 }
        ensures { result ≡ record {
          pipe = pipe;
          stream = stream_left broken pipe true place frames.entry.bytes;
          frame = frames.entry.frame;
          place = place;
          bytes = frames.entry.bytes;
        } }
    {
        Stream {
            frames,
            pipe,
            begins: true,
            place,
            broken,
        }
    }

    /// Takes the next frame that counts, and tells what it is; or how the stream ends.
    pub(crate) fn next(&mut self) -> Next
        ensures { IsNext result self.old self.new }
    {
        match self.broken {
            Some(place) => return Next::Broken(place),
            None => {}
        }
        match self.frames.next_frame() {
            Cut::End => Next::End,
            Cut::Bad => {
                self.broken = Some(self.place as u64);
                Next::Broken(self.place as u64)
            }
            Cut::Frame => {
                let met = meet(self.frames.frame(), self.pipe);
                if stands(self.pipe, self.begins, &met) {
                    let place = Place {
                        at: self.place,
                        len: self.frames.frame().len(),
                    };
                    self.begins = false;
                    self.place += place.len;
                    return Next::Frame { met, place };
                }
                self.broken = Some(self.place as u64);
                Next::Broken(self.place as u64)
            }
        }
    }
}
