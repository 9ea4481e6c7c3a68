//! The queue of an end: PDUs that were accepted and of which no byte was drawn yet.

ghost use Rattle.std.specs.Prelude.{◌≡◌, ◌+◌, ◌≤◌, ◌↔◌, ◌++◌, [], ◌∷◌, IsTrue, IfOk, IfSome, IfNone, length, take, drop, slice_get, Some};
ghost use Rattle.std.specs.Bool.{OnTrue, OnFalse};
ghost use Rattle.std.specs.List.{AllByRecursion};
ghost use Rattle.rh_pdu.specs.Frames.{IsPdu};
ghost use Rattle.rh_pdu.specs.Header.{greatest_length};
ghost use Rattle.rh_line.specs.Queue.{behind, front_length, total};

use crate::pdu_ring::PduRing;
use rh_pdu::header::GREATEST_FRAG;
use std::alloc::{AllocError, Global};
use std::marker::Model;

/// How many bytes of PDUs a queue holds at most.
pub const QUEUE_BYTES: usize = 262_144;

/// PDUs in the order in which they were pushed. Their bytes never pass `QUEUE_BYTES`, and only
/// `new` takes memory.
#[derive(Drop)]
pub struct SendLine {
    pdus: PduRing,
}

impl Model for SendLine {
    ghost use Rattle.std.specs.Prelude.{List, ℕ, ◌≡◌};
    ghost use Rattle.rh_line.specs.Queue.{queue_bytes};

    ghost Value = { List (List ℕ) };

    ghost view = { λ a. a.pdus.pdus };

    ghost invariant = { λ a. a.pdus.room ≡ queue_bytes };
}

impl SendLine {
    /// An empty queue.
    pub fn new(alloc: Global) -> Result<SendLine, AllocError>
        ensures { IfOk result (λ line. line ≡ []) }
    {
        let pdus = PduRing::with_capacity(alloc, QUEUE_BYTES)?;
        Ok(SendLine { pdus })
    }

    /// How many bytes the PDUs have together: 0 to `QUEUE_BYTES`.
    pub fn held(&self) -> usize
        ensures bytes { result ≡ total self.now }
        ensures most { result ≤ QUEUE_BYTES }
        ensures each { AllByRecursion IsPdu self.now }
    {
        self.pdus.held()
    }

    /// The length of the first PDU, 16 to 8,192 bytes. `None` exactly where the queue is empty.
    pub fn front(&self) -> Option<u16>
        ensures { result ≡ front_length self.now }
    {
        self.pdus.front()
    }

    /// Puts a PDU at the end, and answers whether there was room.
    ///
    /// `false` exactly where the bytes held and the PDU's are together above `QUEUE_BYTES`. Nothing
    /// has changed then.
    pub fn push(&mut self, pdu: &[u8]) -> bool
        requires { IsPdu pdu.now }
        ensures room { IsTrue result ↔ (total self.old + length pdu.now ≤ QUEUE_BYTES) }
        ensures pushed { OnTrue result (self.new ≡ self.old ++ pdu.now ∷ []) }
        ensures full { OnFalse result (self.new ≡ self.old) }
    {
        if self.pdus.held() + pdu.len() > QUEUE_BYTES {
            return false;
        }
        self.pdus.push(pdu);
        true
    }

    /// Takes the first PDU out, puts it at the front of the room and answers its length, 16 to
    /// 8,192 bytes. The room behind it stays. `None` exactly where the queue is empty.
    pub fn pop(&mut self, room: &mut [u8; GREATEST_FRAG]) -> Option<u16>
        ensures some { IfSome result (λ len. slice_get self.old 0 ≡ Some (take len room.new)) }
        ensures long { IfSome result (λ len. len ≤ greatest_length) }
        ensures room { IfSome result (λ len. drop len room.new ≡ drop len room.old) }
        ensures rest { self.new ≡ behind self.old }
        ensures none { IfNone result ((self.old ≡ []) × (room.new ≡ room.old)) }
    {
        self.pdus.pop(room)
    }
}
