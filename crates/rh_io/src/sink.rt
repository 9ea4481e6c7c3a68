//! Sinks of bytes: what was written, and how often they failed.

ghost use Rattle.std.specs.Prelude.{◌≡◌, ℕ, ◌+◌, ◌<◌, ◌≤◌, List, length, take, Ok, IsOk, IfOk, OnOk, OnErr, MatchResult};
ghost use Rattle.std.specs.declared.option.Option.{Option};
ghost use Rattle.std.specs.Io.KnownBytes.{Appends, Keeps};
ghost use Rattle.rh_io.specs.Counts.{Rose};

/// A write that failed. Its sink's count of faults rose.
#[derive(Clone, Copy, Debug, PartialEq, Eq)]
pub struct SinkFailed;

/// Where bytes go.
///
/// A sink need not tell its bytes; what it tells is exact. A count that stands at 2^64 - 1 stays
/// there.
pub trait Sink {
    /// The bytes that were written, where it tells them.
    ghost written: { Self → Option (List ℕ) };

    /// How often it failed.
    ghost faults: { Self → ℕ };

    /// So many bytes it takes from here on with no failure.
    ghost takes: { Self → ℕ } = { λ _. 0 };

    /// Writes the front of `piece`, and answers how many bytes it took: from 1 to the length of
    /// `piece`.
    ///
    /// Answers 0 only where `piece` is empty, and then nothing changes. Fails where the outside
    /// failed or took nothing, and counts that and nothing else; no told byte changes then. The
    /// rest of a piece is for a further call; `write_whole` makes them all.
    fn write(&mut self, piece: &[u8]) -> Result<usize, SinkFailed>
        ensures bound { IfOk result (λ n. n ≤ length piece.now) }
        ensures some { 0 < length piece.now → IfOk result (λ n. 0 < n) }
        ensures bytes { MatchResult result
            (λ n. Appends (written self.old) (written self.new) (take n piece.now))
            (λ _. Keeps (written self.old) (written self.new)) }
        ensures failed { OnErr result (Rose (faults self.old) (faults self.new)) }
        ensures no_failure { OnOk result (faults self.new ≡ faults self.old) }
        ensures takes { length piece.now ≤ takes self.old → IsOk result }
        ensures takes_on { IfOk result (λ n. takes self.old ≤ takes self.new + n) }
        ensures no_piece { length piece.now ≡ 0
            → (result ≡ Ok 0) × Keeps (written self.old) (written self.new) }
        ensures faults { faults self.old ≤ faults self.new };
}
