//! Sources of bytes: what was read, what is left, and how often they failed or ended.

ghost use Rattle.std.specs.Prelude.{◌≡◌, ℕ, ◌<◌, ◌≤◌, List, length, take, Ok, IsOk, IfOk, OnOk, OnErr, MatchResult};
ghost use Rattle.std.specs.declared.option.Option.{Option};
ghost use Rattle.std.specs.Io.{ReadsAtMost};
ghost use Rattle.std.specs.Io.KnownBytes.{IsAtEnd};
ghost use Rattle.rh_io.specs.Bytes.{Moves, Stays};
ghost use Rattle.rh_io.specs.Counts.{Rose};

/// A read that failed. Its source's count of faults rose.
#[derive(Clone, Copy, Debug, PartialEq, Eq)]
pub struct SourceFailed;

/// Where bytes come from.
///
/// A source need not tell its bytes; what it tells is exact. A count that stands at 2^64 - 1 stays
/// there.
pub trait Source {
    /// The bytes that are left, where it tells them.
    ghost left: { Self → Option (List ℕ) };

    /// The bytes that were read from it, where it tells them.
    ghost taken: { Self → Option (List ℕ) };

    /// How often it failed.
    ghost faults: { Self → ℕ };

    /// How often it answered that it is at its end.
    ghost ends: { Self → ℕ };

    /// No read fails from here on.
    ghost unfailing: { Self → Type 0 } = { λ _. ⊥ };

    /// Reads the next bytes into the front of `room`, and answers how many: from 1 to the length of
    /// `room`.
    ///
    /// Answers 0 at its end, and counts that; also where `room` is empty, and then nothing changes.
    /// Fails where the outside failed, and counts that; no told byte is lost then. No count rises
    /// for another reason.
    fn read(&mut self, room: &mut [u8]) -> Result<usize, SourceFailed>
        ensures bound { ReadsAtMost result room.new }
        ensures bytes { MatchResult result
            (λ n. Moves (left self.old) (left self.new) (taken self.old) (taken self.new)
            (take n room.new))
            (λ _. Stays (left self.old) (left self.new) (taken self.old) (taken self.new)) }
        ensures at_end { IfOk result (λ n. n ≡ 0 → 0 < length room.old
            → Rose (ends self.old) (ends self.new) × IsAtEnd (left self.new)) }
        ensures no_end { IfOk result (λ n. 0 < n → ends self.new ≡ ends self.old) }
        ensures failed { OnErr result (Rose (faults self.old) (faults self.new)) }
        ensures no_failure { OnOk result (faults self.new ≡ faults self.old) }
        ensures no_end_at_failure { OnErr result (ends self.new ≡ ends self.old) }
        ensures unfailing { unfailing self.old → IsOk result × unfailing self.new }
        ensures no_room { length room.old ≡ 0 → (result ≡ Ok 0)
            × Stays (left self.old) (left self.new) (taken self.old) (taken self.new)
            × (faults self.new ≡ faults self.old) × (ends self.new ≡ ends self.old) }
        ensures faults { faults self.old ≤ faults self.new }
        ensures ends { ends self.old ≤ ends self.new };
}
