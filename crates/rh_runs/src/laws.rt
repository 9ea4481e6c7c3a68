//! What holds of all runs. These functions do nothing, and their contracts are the laws.

ghost use Rattle.rh_runs.specs.Runs.{CallsStand, CallsAreThose};
ghost use Rattle.rh_runs.specs.Own.{OwnAreThose};

/// The calls of a seat that began with nothing stand in each history that goes on from what it has
/// seen: each at its place there, with its reply, in order.
pub fn calls_stand<S, E, R>()
    ensures { CallsStand S E R }
{}

/// Where all entries of a list that pass a test stand at a seat's places, those of the list that
/// pass it are those at the places, in order.
pub fn own_are_those<E>()
    ensures { OwnAreThose E }
{}

/// Both at once: where all calls of a history that pass a test are a seat's, they are those that it
/// made, in its order and with its replies.
pub fn calls_are_those<S, E, R>()
    ensures { CallsAreThose S E R }
{}
