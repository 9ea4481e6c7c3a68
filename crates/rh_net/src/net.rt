//! Nets: where legs come from, and where they are handed back.

ghost use Rattle.std.specs.Prelude.{◌≡◌, OnOk, OnErr};
ghost use Rattle.std.specs.declared.option.Option.{Option};
ghost use Rattle.rh_net.specs.declared.counts.NetCounts.{NetCounts};
ghost use Rattle.rh_net.specs.Backs.{Backs, TellsAtMost, with_source, with_sink};
ghost use Rattle.rh_net.specs.Calls.{AreLater, CountsFault, GivesLeg, IsUnused};
ghost use Rattle.rh_net.specs.Calls.{sink_back, source_back};

use crate::address::Address;
use crate::shut::{ShutSink, ShutSource};
use crate::way::Way;

/// A call of a net that failed. The net's count of faults rose.
#[derive(Clone, Copy, Debug, PartialEq, Eq)]
pub struct NetFailed;

/// Where legs come from.
///
/// A leg is a source and a sink over one connection. It is waited for on a way, of which each
/// thread has its own, and is booked here; so no call waits, and a net can be shared under a lock.
/// Counts never fall, and one that stands at
/// 2^64 - 1 stays there. Who has used a leg hands its streams back, so that their own counts become
/// the net's.
pub trait Net {
    type In: ShutSource + Drop;

    type Out: ShutSink + Drop;

    /// What comes on its ways: a leg, or why there is none.
    type Came;

    type Way: Way<Came = Self::Came> + Drop;

    /// Its counts: calls of `way`, `gives` and `listen` that failed, legs given, streams taken back
    /// that had failed, and sources taken back that had ended.
    ghost counts: { Self → NetCounts };

    /// The streams taken back, where it tells them.
    ghost backs: { Self → Option Backs };

    /// Takes the source of a leg back, and counts whether it failed and whether it ended.
    fn back_in(&mut self, source: Self::In)
        ensures counts { counts self.new
            ≡ source_back (counts self.old) (Self.In.faults source) (Self.In.ends source) }
        ensures backs { TellsAtMost (backs self.old) (backs self.new) (λ b. with_source b (record {
          read = Self.In.taken source;
          faults = Self.In.faults source;
          ends = Self.In.ends source;
        })) }
        ensures later { AreLater (counts self.old) (counts self.new) };

    /// Takes the sink of a leg back, and counts whether it failed.
    fn back_out(&mut self, sink: Self::Out)
        ensures counts { counts self.new ≡ sink_back (counts self.old) (Self.Out.faults sink) }
        ensures backs { TellsAtMost (backs self.old) (backs self.new) (λ b. with_sink b (record {
          written = Self.Out.written sink;
          faults = Self.Out.faults sink;
        })) }
        ensures later { AreLater (counts self.old) (counts self.new) };

    /// A way for one thread, which waits for legs while others call this net.
    ///
    /// Fails only where it counts a fault.
    fn way(&mut self) -> Result<Self::Way, NetFailed>
        ensures ok { OnOk result (counts self.new ≡ counts self.old) }
        ensures err { OnErr result (CountsFault (counts self.old) (counts self.new)) }
        ensures later { AreLater (counts self.old) (counts self.new) }
        ensures backs { backs self.new ≡ backs self.old };

    /// Gives the leg that came on a way, and counts it. Doesn't wait.
    ///
    /// Fails where none came, and only where it counts a fault. The leg's streams were never used.
    /// Where nobody came it may be a leg whose source is at its end.
    fn gives(&mut self, came: Self::Came) -> Result<(Self::In, Self::Out), NetFailed>
        ensures leg { GivesLeg result
            (IsUnused Self.In.taken Self.In.faults Self.In.ends Self.Out.written Self.Out.faults)
            (counts self.old) (counts self.new) }
        ensures backs { backs self.new ≡ backs self.old };

    /// Begins to listen at an address, and no longer at one before it.
    ///
    /// Fails only where it counts a fault.
    fn listen(&mut self, at: &Address) -> Result<(), NetFailed>
        ensures ok { OnOk result (counts self.new ≡ counts self.old) }
        ensures err { OnErr result (CountsFault (counts self.old) (counts self.new)) }
        ensures later { AreLater (counts self.old) (counts self.new) }
        ensures backs { backs self.new ≡ backs self.old };
}
