//! A hop at rest. This function does nothing: its contract is the law.

ghost use Rattle.std.specs.Prelude.{◌≡◌, List, ℕ, []};
ghost use Rattle.rh_window.specs.Sides.{Sender};
ghost use Rattle.rh_line.specs.Lines.{Incoming};
ghost use Rattle.law_world_free.specs.Drained.{IsDrained, IsShort, WaitsForWindow};

/// Where all that was sent on a hop came and was passed on, the sender knows all that was told, and
/// no acknowledgement is due: RPC PDUs that wait for the window alone are none (MS-RPCH 3.2).
pub fn a_drained_hop_leaves_nothing()
    ensures { (s : Sender) (c : Incoming) → IsDrained s c → (pdus : List (List ℕ))
        → IsShort pdus → WaitsForWindow s pdus → pdus ≡ [] }
{}
