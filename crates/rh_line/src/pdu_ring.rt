//! PDUs end to end in a ring of bytes, which takes no memory once it is made.

ghost use Rattle.std.specs.Prelude.{◌≡◌, ◌+◌, ◌≤◌, [], ◌∷◌, ◌++◌, IfOk, IfSome, IfNone, length, take, drop, slice_get, Some};
ghost use Rattle.std.specs.List.{AllByRecursion};
ghost use Rattle.rh_pdu.specs.Cut.{frames_of};
ghost use Rattle.rh_pdu.specs.Frames.{IsPdu};
ghost use Rattle.rh_pdu.specs.Header.{frag_of, greatest_length, header_length};
ghost use Rattle.rh_line.specs.Queue.{behind, front_length, total};
ghost use Rattle.rh_line.specs.Rings.{IsEndToEnd};

use circular_buffer::HeapCircularBuffer;
use rh_pdu::header::{FRAG_AT, GREATEST_FRAG, LITTLE_ENDIAN, ORDER_AT};
use std::alloc::{AllocError, Global};
use std::marker::Model;

/// PDUs in the order in which they were pushed, in a room of so many bytes. Each one's length is
/// read from its own header.
#[derive(Drop)]
pub(crate) struct PduRing {
    bytes: HeapCircularBuffer<u8>,
}

impl Model for PduRing {
    ghost use Rattle.rh_pdu.specs.Cut.{frames_of};
    ghost use Rattle.rh_line.specs.Rings.{Ring, ring, IsEndToEnd};

    ghost Value = { Ring };

    ghost view = { λ a. ring (frames_of a.bytes.items) a.bytes.capacity };

    ghost invariant = { λ a. IsEndToEnd a.bytes.items };
}

impl PduRing {
    ghost use Rattle.rh_line.specs.Rings.{ring};

    /// No PDU, and a room of so many bytes.
    pub(crate) fn with_capacity(alloc: Global, room: usize) -> Result<PduRing, AllocError>
        ensures { IfOk result (λ made. made ≡ ring [] room) }
    {
        let bytes = HeapCircularBuffer::with_capacity(alloc, room)?;
        Ok(PduRing { bytes })
    }

    /// How many bytes the PDUs have together.
    pub(crate) fn held(&self) -> usize
        ensures bytes { result ≡ total self.now.pdus }
        ensures most { result ≤ self.now.room }
        ensures each { AllByRecursion IsPdu self.now.pdus }
    {
        self.bytes.len()
    }

    /// The length of the first PDU, 16 to 8,192 bytes. `None` exactly where there is none.
    pub(crate) fn front(&self) -> Option<u16>
        ensures { result ≡ front_length self.now.pdus }
    {
        first_length(&self.bytes)
    }

    /// Puts a PDU, for which there is room, behind the others.
    pub(crate) fn push(&mut self, pdu: &[u8])
        requires pdu { IsPdu pdu.now }
        requires room { total self.old.pdus + length pdu.now ≤ self.old.room }
        ensures { self.new ≡ ring (self.old.pdus ++ pdu.now ∷ []) self.old.room }
    {
        self.bytes.fill_from_slice(pdu);
    }

    /// Takes the first PDU out, puts it at the front of the room and answers its length, 16 to
    /// 8,192 bytes. The room behind it stays. `None` exactly where there is no PDU.
    #[inline(always)]
    pub(crate) fn pop(&mut self, room: &mut [u8; GREATEST_FRAG]) -> Option<u16>
        ensures some { IfSome result (λ len. slice_get self.old.pdus 0 ≡ Some (take len room.new)) }
        ensures long { IfSome result (λ len. len ≤ greatest_length) }
        ensures room { IfSome result (λ len. drop len room.new ≡ drop len room.old) }
        ensures rest { self.new ≡ ring (behind self.old.pdus) self.old.room }
        ensures none { IfNone result ((self.old.pdus ≡ []) × (room.new ≡ room.old)) }
    {
        let len = first_length(&self.bytes)?;
        self.bytes.read_into(&mut room[..usize::from(len)]);
        Some(len)
    }
}

/// The length that the header at the front tells, in its own byte order (C706 12.6.3.1).
#[tactic(auto, unfolding(rh_pdu::specs::Header::frag_of))]
fn front_frag(bytes: &HeapCircularBuffer<u8>) -> u16
    requires { header_length ≤ length bytes.now.items }
    ensures { result ≡ frag_of bytes.now.items }
{
    let (Some(order), Some(first), Some(last)) = (
        bytes.nth_front(ORDER_AT),
        bytes.nth_front(FRAG_AT),
        bytes.nth_front(FRAG_AT + 1),
    ) else {
        unreachable!()
    };
    if order / 16 == LITTLE_ENDIAN {
        u16::from_le_bytes([*first, *last])
    } else {
        u16::from_be_bytes([*first, *last])
    }
}

/// The length of the first PDU; `None` exactly where there is none.
fn first_length(bytes: &HeapCircularBuffer<u8>) -> Option<u16>
    requires { IsEndToEnd bytes.now.items }
    ensures len { result ≡ front_length (frames_of bytes.now.items) }
    ensures within { IfSome result (λ len. len ≤ length bytes.now.items) }
    ensures long { IfSome result (λ len. len ≤ greatest_length) }
{
    if bytes.is_empty() {
        return None;
    }
    Some(front_frag(bytes))
}
