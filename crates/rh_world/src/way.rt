//! One direction of the direct leg, from the end that gives to the end that takes.

ghost use Rattle.std.specs.Prelude.{◌≡◌, ◌+◌, ◌-◌, ◌/◌, ◌<◌, ◌≤◌, ◌^◌, ◌++◌, [], ◌∷◌, IfOk, OnOk, OnErr};
ghost use Rattle.std.specs.Prelude.{length, vec_len, take, drop, None, MatchOption};
ghost use Rattle.std.specs.List.{concat};
ghost use Rattle.rh_pdu.specs.declared.header.TheConstants.{HEADER_LEN};
ghost use Rattle.rh_pdu.specs.Frames.{IsBad, IsFrame};
ghost use Rattle.rh_line.specs.Queue.{untouched};
ghost use Rattle.rh_pdu.specs.Cut.{frames_of, rest_of};
ghost use Rattle.rh_world.specs.Direct as seen;

use crate::received::Received;
use circular_buffer::HeapCircularBuffer;
use rh_line::{BegunPdu, GiveFault, SendLine, draw};
use rh_pdu::header::HEADER_LEN;
use rh_pdu::{Feed, Framer, check};
use rh_record::TakeAnswer;
use rh_text::Bytes;
use rh_wires::ring::{make_room, take_front};
use std::alloc::{AllocError, Global};
use std::marker::Model;

/// How many bytes in flight there is room for at first.
const FIRST_FLIGHT: usize = 4096;

/// What one direction carries: PDUs queued, bytes begun, in flight and fed, PDUs not yet taken.
#[derive(Drop)]
pub(crate) struct Way {
    queue: SendLine,
    begun: BegunPdu,
    drawn: Vec<u8>,
    flight: HeapCircularBuffer<u8>,
    framer: Framer,
    untaken: Received,
    given: u32,
    taken: u32,
}

impl Model for Way {
    ghost use Rattle.std.specs.Prelude.{◌++◌};
    ghost use Rattle.std.specs.List.{concat};
    ghost use Rattle.rh_world.specs.Direct as seen;
    ghost use Rattle.rh_world.specs.Carrying.{IsCarrying, way_with};

    ghost Value = { seen.Way };

    ghost view = { λ a. way_with a.queue a.begun a.flight.items a.framer a.untaken.pdus a.given
        a.taken };

    ghost invariant = { λ a. IsCarrying (a.begun ++ concat a.queue) a.flight.items a.framer
        a.untaken.pdus a.given a.taken };
}

impl Way {
    /// A direction that carries nothing.
    pub(crate) fn new(alloc: Global) -> Result<Way, AllocError>
        ensures { IfOk result (λ way. way ≡ seen.empty_way) }
    {
        Ok(Way {
            queue: SendLine::new(alloc)?,
            begun: BegunPdu::new(),
            drawn: Vec::new(alloc),
            flight: HeapCircularBuffer::with_capacity(alloc, FIRST_FLIGHT)?,
            framer: Framer::new(),
            untaken: Received::new(alloc)?,
            given: 0,
            taken: 0,
        })
    }

    /// How many PDUs were given.
    pub(crate) fn given(&self) -> u32
        ensures { result ≡ self.now.given }
    {
        self.given
    }

    /// How many PDUs were taken.
    pub(crate) fn taken(&self) -> u32
        ensures { result ≡ self.now.taken }
    {
        self.taken
    }

    /// Queues a PDU, and answers its length or why it is refused. Bytes that are no PDU are told
    /// first.
    #[inline(always)]
    pub(crate) fn give(&mut self, pdu: &[u8]) -> Result<u16, GiveFault>
        requires { self.old.given + 1 < 2 ^ 32 }
        ensures { (self.new, result) ≡ seen.give self.old pdu.now }
    {
        if let Err(fault) = check(pdu) {
            return Err(GiveFault::BadPdu(fault));
        }
        if !self.queue.push(pdu) {
            return Err(GiveFault::Full {
                held: self.queue.held(),
                len: pdu.len(),
            });
        }
        self.given += 1;
        Ok(pdu.len() as u16)
    }

    /// Draws up to `count` bytes into flight, and answers how many.
    #[inline(always)]
    pub(crate) fn send(&mut self, alloc: Global, count: u32) -> Result<u32, AllocError>
        ensures done { IfOk result (λ drawn. (self.new, drawn) ≡ seen.send self.old count) }
        ensures err { OnErr result (self.new ≡ self.old) }
    {
        let count = (count as usize).min(self.begun.len() + self.queue.held());
        make_room(alloc, &mut self.flight, count)?;
        widen(&mut self.drawn, count)?;
        let (room, _) = self.drawn.as_mut_slice().split_at_mut(count);
        carry(&mut self.queue, &mut self.begun, room, &mut self.flight);
        Ok(count as u32)
    }

    /// Feeds the first `count` bytes in flight, or all where there are fewer, and answers them.
    #[inline(always)]
    pub(crate) fn feed(&mut self, alloc: Global, count: u32) -> Result<Bytes, AllocError>
        ensures done { IfOk result (λ piece. (self.new, piece) ≡ seen.move self.old count) }
        ensures err { OnErr result (self.new ≡ self.old) }
    {
        let most = self.framer.held() + self.flight.len().min(count as usize);
        self.untaken.reserve(alloc, most, most / HEADER_LEN)?;
        let piece = take_front(alloc, &mut self.flight, count as usize)?;
        deliver(&mut self.framer, piece.as_slice(), &mut self.untaken);
        Ok(piece)
    }

    /// Takes the first PDU that came whole, if there is one.
    #[inline(always)]
    pub(crate) fn take(&mut self, alloc: Global) -> Result<TakeAnswer, AllocError>
        ensures done { IfOk result (λ answer. (self.new, answer) ≡ seen.take_pdu self.old) }
        ensures err { OnErr result (self.new ≡ self.old) }
    {
        let Some(pdu) = self.untaken.pop(alloc)? else {
            return Ok(TakeAnswer::Empty);
        };
        self.taken += 1;
        Ok(TakeAnswer::Pdu(pdu))
    }
}

/// Draws as many bytes as the room has into flight, by way of that room.
fn carry(
    queue: &mut SendLine,
    begun: &mut BegunPdu,
    room: &mut [u8],
    flight: &mut HeapCircularBuffer<u8>,
)
    requires few { length room.old ≤ length (begun.old ++ concat queue.old) }
    requires fits { length flight.old.items + length room.old ≤ flight.old.capacity }
    ensures flight { flight.new.items
        ≡ flight.old.items ++ take (length room.old) (begun.old ++ concat queue.old) }
    ensures left { begun.new ++ concat queue.new
        ≡ drop (length room.old) (begun.old ++ concat queue.old) }
    ensures queue { queue.new ≡ untouched (length room.old - length begun.old) queue.old }
{
    draw(queue, begun, room);
    flight.fill_from_slice(room);
}

/// Makes a room of `count` bytes at least.
fn widen(room: &mut Vec<u8>, count: usize) -> Result<(), AllocError>
    ensures { OnOk result (count ≤ vec_len room.new) }
{
    if room.len() < count {
        room.resize(count, 0)?;
    }
    Ok(())
}

/// Feeds a piece up to the end of the first frame, which the framer then lends, and answers how
/// many bytes of the piece that used; `None` where all of it was used and no frame is whole.
#[inline(always)]
fn next_frame(framer: &mut Framer, piece: &[u8]) -> Option<usize>
    requires going { framer.old.fault ≡ None }
    requires sound { IsBad (rest_of (framer.old.rest ++ piece.now)) → ⊥ }
    ensures going { framer.new.fault ≡ None }
    ensures frames { MatchOption result
        ((frames_of (framer.old.rest ++ piece.now) ≡ [])
        × (rest_of (framer.old.rest ++ piece.now) ≡ framer.new.rest))
        (λ used. (framer.new.rest ≡ []) × IsFrame framer.new.frame
        × (framer.old.rest ++ piece.now ≡ framer.new.frame ++ drop used piece.now)
        × (0 < used) × (used ≤ length piece.now)) }
{
    match framer.feed(piece) {
        Feed::Need => None,
        Feed::Frame { used, .. } => Some(used),
        Feed::Fault { place: _, fault: _ } => unreachable!(),
    }
}

/// Feeds a piece to its end, and keeps the frames that it makes whole.
#[inline(always)]
fn deliver(framer: &mut Framer, piece: &[u8], untaken: &mut Received)
    requires going { framer.old.fault ≡ None }
    requires sound { IsBad (rest_of (framer.old.rest ++ piece.now)) → ⊥ }
    requires room { length (framer.old.rest ++ piece.now) ≤ untaken.old.room }
    requires places { length (framer.old.rest ++ piece.now) / HEADER_LEN ≤ untaken.old.places }
    ensures going { framer.new.fault ≡ None }
    ensures rest { framer.new.rest ≡ rest_of (framer.old.rest ++ piece.now) }
    ensures frames { untaken.new.pdus
        ≡ untaken.old.pdus ++ frames_of (framer.old.rest ++ piece.now) }
{
    let mut left = piece;
    'frames: while let Some(used) = next_frame(framer, left) {
        untaken.push(framer.frame());
        let (_, behind) = left.split_at(used);
        left = behind;
    }
}
