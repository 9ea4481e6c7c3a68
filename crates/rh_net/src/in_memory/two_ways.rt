//! The two directions of a leg, and which of them a party reads and writes.

ghost use Rattle.std.specs.Prelude.{◌≡◌};
ghost use Rattle.rh_net.specs.Memory.Legs.{the_way, of_leg};

/// Who has an end of a leg.
#[derive(Clone, Copy)]
pub(crate) enum Party {
    /// Who connected.
    Caller,
    /// Who accepted.
    Callee,
}

/// Which half of an end it is.
#[derive(Clone, Copy)]
pub(crate) enum Half {
    /// It reads what the other party wrote.
    Reading,
    /// It writes what the other party reads.
    Writing,
}

/// What a leg has in each direction.
#[derive(Drop)]
pub(crate) struct TwoWays<T> {
    pub(crate) to_callee: T,
    pub(crate) to_caller: T,
}

impl<T> TwoWays<T> {
    /// What a party's half reads or writes: what one party reads is what the other writes.
    pub(crate) fn of(&self, party: Party, half: Half) -> &T
        ensures { result.now ≡ the_way self.now party half }
    {
        match (party, half) {
            (Party::Caller, Half::Reading) | (Party::Callee, Half::Writing) => &self.to_caller,
            (Party::Caller, Half::Writing) | (Party::Callee, Half::Reading) => &self.to_callee,
        }
    }
}

/// The ways of the leg at a place; of no leg, and past the last one, `ended`.
pub(crate) fn ways_of<'a, T>(
    legs: &'a [TwoWays<T>],
    leg: Option<usize>,
    ended: &'a TwoWays<T>,
) -> &'a TwoWays<T>
    ensures { result.now ≡ of_leg legs.now leg ended.now }
{
    match leg {
        Some(place) if place < legs.len() => &legs[place],
        _ => ended,
    }
}
