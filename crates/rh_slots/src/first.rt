//! The bytes that a keeper reads of a leg before it is up.

ghost use Rattle.std.specs.Prelude.{◌≡◌, ℕ, ◌≤◌, ◌++◌, List, [], length, take, IfOk, OnOk, OnErr};
ghost use Rattle.rh_io.specs.Bytes.{Moves};
ghost use Rattle.rh_io.specs.Counts.{Rose};

use rh_io::{Source, SourceFailed};
use std::marker::Model;

/// The most bytes that are read of a leg before it is up. A piece has room for them.
pub const FIRST_ROOM: usize = 4096;

/// What was read of a leg before it is up, at most 4,096 bytes. Contracts see the bytes.
#[derive(Drop)]
pub struct First {
    len: u16,
    room: [u8; FIRST_ROOM],
}

impl Model for First {
    ghost use Rattle.std.specs.Prelude.{ℕ, List, take, ◌≤◌};

    ghost Value = { List ℕ };

    ghost view = { λ f. take f.len f.room };

    ghost invariant = { λ f. f.len ≤ 4096 };
}

impl First {
    /// No bytes.
    pub fn new() -> First
        ensures { result ≡ [] }
    {
        First {
            len: 0,
            room: [0; FIRST_ROOM],
        }
    }

    /// The bytes.
    pub fn bytes(&self) -> &[u8]
        ensures bytes { result.now ≡ self.now }
        ensures fits { length result.now ≤ 4096 }
    {
        &self.room[..usize::from(self.len)]
    }

    /// Reads once more of the source, and answers how many bytes came: 0 at its end, and where
    /// there is no room.
    pub fn read<I: Source>(&mut self, source: &mut I) -> Result<usize, SourceFailed>
        ensures bytes { IfOk result (λ count. (bytes : List ℕ) × (self.new ≡ self.old ++ bytes)
            × (length bytes ≡ count)
            × Moves (I.left source.old) (I.left source.new)
            (I.taken source.old) (I.taken source.new) bytes) }
        ensures failed { OnErr result (Rose (I.faults source.old) (I.faults source.new)) }
        ensures no_failure { OnOk result (I.faults source.new ≡ I.faults source.old) }
    {
        let held = usize::from(self.len);
        let count = source.read(&mut self.room[held..])?;
        self.len = (held + count) as u16;
        Ok(count)
    }
}
