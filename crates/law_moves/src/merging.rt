//! Laws of the packets that wait. These functions do nothing: their contracts are the laws.

ghost use Rattle.std.specs.Prelude.{ℕ, List};
ghost use Rattle.rh_sig.specs.declared.named.Named.{Named};
ghost use Rattle.rh_shell.specs.Waiting.{Waiting, Key, empty};
ghost use Rattle.law_moves.specs.Merging.{Event, after_all, IsMerged, Raises};

/// Whatever became due, was forwarded, taken or dropped: for each destination and channel at most
/// one acknowledgement waits that is to be forwarded.
pub fn one_waits_of_each()
    ensures { (room : ℕ) (events : List Event) → IsMerged (after_all events (empty room)) }
{}

/// Forwarding a packet lowers no edge that waits, which is bytes received and window of an
/// acknowledgement; where it waits, by itself or merged, an edge as great as its own waits.
pub fn edges_never_fall()
    ensures { (waiting : Waiting) (packet : Named) (key : Key) → Raises waiting packet key }
{}
