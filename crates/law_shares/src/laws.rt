//! What holds of all histories that many seats made. These functions do nothing, and their
//! contracts are the laws.

ghost use Rattle.law_shares.specs.Shares.{HistoryIsDealt, OnesAreThose};

use rh_runs::{calls_stand, own_are_those};

/// Where seats that had seen nothing were taken in by another one, which then made the last call and
/// has all places, the history is dealt out among them.
pub fn history_is_dealt<S, E, R>()
    ensures { HistoryIsDealt S E R }
{
    calls_stand::<S, E, R>();
}

/// Where no other share of a history has calls that pass a test, those of the history that pass it
/// are those of the one share, in its order.
pub fn ones_are_those<S, E, R>()
    ensures { OnesAreThose S E R }
{
    own_are_those::<(E, R)>();
}
