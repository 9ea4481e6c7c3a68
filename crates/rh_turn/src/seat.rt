//! Seats: who may act on a turn.

ghost use Rattle.std.specs.Prelude.{◌≡◌};

use crate::machine::Machine;
use crate::view::View;
use std::marker::Model;

/// The leave to act on one turn, for one thread at a time.
///
/// Contracts see whose it is, the beginning of the history that it has seen, the places of its own
/// calls there and its parts, of which it has at least one.
#[derive(Drop)]
pub struct Seat<M: Machine> {
    pub(crate) token: atomic_table::Seat<Option<M::State>, View<M::Event>>,
}

impl<M: Machine> Model for Seat<M> {
    ghost use Rattle.rh_turn.specs.Values.{SeatValue, seat_code, seat_value, IsAtRest};

    ghost Value = { SeatValue M.Event };

    ghost coded = { seat_code M.Event.code };

    ghost view = { λ s. seat_value s.token.table_id s.token.me.0 };

    ghost invariant = { λ s. IsAtRest s.token.me };
}
