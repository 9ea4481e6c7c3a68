//! The rule that the table of a turn keeps at each step.

use crate::machine::Machine;
use crate::view::View;
use atomic_table::TableRule;
use std::marker::PhantomData;
use std::snapshot::Snapshot;

/// What a table is told when it is made: the machine's first state, and the parts of all its seats.
#[derive(Drop)]
pub struct Opening<S> {
    pub first: Snapshot<S>,
    pub seats: u32,
}

/// Tickets, the turn, places and parts are dealt out among the seats, and there is one history.
pub struct TurnRule<M>(PhantomData<M>);

impl<M: Machine> TableRule<Option<M::State>, View<M::Event>, Opening<M::State>> for TurnRule<M> {
    ghost use Rattle.rh_turn.specs.Rule.{Kept, first_view};

    ghost holds = { λ k s. Kept M.next k.first.value k.seats s };

    ghost first = { λ k. first_view k.seats };
}
