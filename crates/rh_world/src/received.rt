//! The PDUs that came whole and were not taken yet.

ghost use Rattle.std.specs.Prelude.{◌≡◌, ◌+◌, ◌-◌, ◌≤◌, ◌<◌, ◌^◌, ◌++◌, [], ◌∷◌, IfOk, OnOk, OnErr, MatchOption, length};

use circular_buffer::HeapCircularBuffer;
use rh_text::Bytes;
use rh_wires::ring::{make_room, take_front};
use std::alloc::{AllocError, Global};
use std::marker::Model;

/// PDUs end to end in a ring of bytes, and their lengths in another.
#[derive(Drop)]
pub(crate) struct Received {
    bytes: HeapCircularBuffer<u8>,
    lengths: HeapCircularBuffer<u16>,
}

impl Model for Received {
    ghost use Rattle.std.specs.Prelude.{◌-◌, length};
    ghost use Rattle.rh_world.specs.Pieces as seen;

    ghost Value = { seen.Received };

    ghost view = { λ a. record {
      pdus = seen.pieces a.lengths.items a.bytes.items;
      room = a.bytes.capacity - length a.bytes.items;
      places = a.lengths.capacity - length a.lengths.items;
    } };

    ghost invariant = { λ a. seen.IsWhole a.lengths.items a.bytes.items a.lengths.capacity
        a.bytes.capacity };
}

impl Received {
    /// No PDUs, and no room for any yet.
    pub(crate) fn new(alloc: Global) -> Result<Received, AllocError>
        ensures { IfOk result (λ received. received.pdus ≡ []) }
    {
        let bytes = HeapCircularBuffer::with_capacity(alloc, 0)?;
        let lengths = HeapCircularBuffer::with_capacity(alloc, 0)?;
        Ok(Received { bytes, lengths })
    }

    /// Makes room for so many bytes of so many PDUs.
    #[inline(always)]
    pub(crate) fn reserve(
        &mut self,
        alloc: Global,
        bytes: usize,
        pdus: usize,
    ) -> Result<(), AllocError>
        ensures pdus { self.new.pdus ≡ self.old.pdus }
        ensures room { OnOk result (bytes ≤ self.new.room) }
        ensures places { OnOk result (pdus ≤ self.new.places) }
    {
        make_room(alloc, &mut self.bytes, bytes)?;
        make_room(alloc, &mut self.lengths, pdus)
    }

    /// Puts a PDU behind the others, in the room that was made.
    pub(crate) fn push(&mut self, pdu: &[u8])
        requires short { length pdu.now < 2 ^ 16 }
        requires room { length pdu.now ≤ self.old.room }
        requires place { 0 < self.old.places }
        ensures pdus { self.new.pdus ≡ self.old.pdus ++ pdu.now ∷ [] }
        ensures room { self.new.room ≡ self.old.room - length pdu.now }
        ensures places { self.new.places ≡ self.old.places - 1 }
    {
        self.bytes.fill_from_slice(pdu);
        self.lengths.push_back(pdu.len() as u16);
    }

    /// Takes the first PDU out, if there is one. Nothing changes where there is no memory for it.
    pub(crate) fn pop(&mut self, alloc: Global) -> Result<Option<Bytes>, AllocError>
        ensures ok { IfOk result (λ taken. MatchOption taken
            ((self.old.pdus ≡ []) × (self.new.pdus ≡ []))
            (λ pdu. self.old.pdus ≡ pdu ∷ self.new.pdus)) }
        ensures err { OnErr result (self.new.pdus ≡ self.old.pdus) }
    {
        let Some(len) = self.lengths.front().copied() else {
            return Ok(None);
        };
        let pdu = take_front(alloc, &mut self.bytes, usize::from(len))?;
        self.lengths.pop_front();
        Ok(Some(pdu))
    }
}
