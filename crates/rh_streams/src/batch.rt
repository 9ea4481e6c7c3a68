//! PDUs that were taken and are not yet written.

ghost use Rattle.std.specs.Prelude.{◌≡◌, ◌≤◌, ◌+◌, ◌++◌, [], length, true};

use rh_machines::BLOCK_ROOM;
use std::marker::Model;

/// The most bytes of a batch: twice those of the largest PDU.
pub(crate) const BATCH_ROOM: usize = 2 * BLOCK_ROOM;

/// PDUs end to end, at most 16,384 bytes. Contracts see the bytes.
#[derive(Drop)]
pub(crate) struct Batch {
    len: usize,
    room: [u8; BATCH_ROOM],
}

impl Model for Batch {
    ghost use Rattle.std.specs.Prelude.{ℕ, List, take, ◌≤◌};

    ghost Value = { List ℕ };

    ghost view = { λ b. take b.len b.room };

    ghost invariant = { λ b. b.len ≤ 16384 };
}

impl Batch {
    /// No PDU.
    pub(crate) fn new() -> Batch
        ensures { result ≡ [] }
    {
        Batch {
            len: 0,
            room: [0; BATCH_ROOM],
        }
    }

    /// The bytes.
    pub(crate) fn bytes(&self) -> &[u8]
        ensures { result.now ≡ self.now }
    {
        &self.room[..self.len]
    }

    /// Whether there is room for the largest PDU.
    pub(crate) fn has_room(&self) -> bool
        ensures { result ≡ true → length self.now + 8192 ≤ 16384 }
    {
        self.len + BLOCK_ROOM <= BATCH_ROOM
    }

    /// Puts a PDU behind the others.
    pub(crate) fn push(&mut self, pdu: &[u8])
        requires { length self.old + length pdu.now ≤ 16384 }
        ensures { self.new ≡ self.old ++ pdu.now }
    {
        let end = self.len + pdu.len();
        self.room[self.len..end].copy_from_slice(pdu);
        self.len = end;
    }

    /// Lets no PDU be there.
    pub(crate) fn clear(&mut self)
        ensures { self.new ≡ [] }
    {
        self.len = 0;
    }
}
