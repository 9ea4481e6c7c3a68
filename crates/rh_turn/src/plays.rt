//! What each kind of step tells the seat that makes it. These types stand in proofs alone.

use crate::machine::Machine;
use crate::view::View;
use atomic_table::{Join, Play, Split};
use std::marker::{Brand, PhantomData};

/// What one call is about, which a step can't be told otherwise: the first state of its turn, and
/// its event. The proof of each call picks them.
pub trait Call<S, E> {
    ghost use Rattle.std.specs.declared.option.Option.{Option};

    ghost first: { Option S };

    ghost event: { Option E };
}

impl<S, E> Call<S, E> for Brand {
    ghost use Rattle.std.specs.Prelude.{None};

    ghost first = { None };

    ghost event = { None };
}

pub struct Draw;

impl<S, E> Play<Option<S>, View<E>> for Draw {
    ghost use Rattle.rh_turn.specs.Steps.{Draws};

    ghost then = { Draws };
}

pub struct Look<M, C>(PhantomData<(M, C)>);

impl<M: Machine, C: Call<M::State, M::Event>> Play<Option<M::State>, View<M::Event>>
    for Look<M, C> {
    ghost use Rattle.rh_turn.specs.Steps.{Looks};

    ghost then = { Looks M.next C.first };
}

pub struct Enter<M, C>(PhantomData<(M, C)>);

impl<M: Machine, C: Call<M::State, M::Event>> Play<Option<M::State>, View<M::Event>>
    for Enter<M, C> {
    ghost use Rattle.rh_turn.specs.Steps.{Enters};

    ghost then = { Enters C.event };
}

pub struct Raise;

impl<S, E> Play<Option<S>, View<E>> for Raise {
    ghost use Rattle.rh_turn.specs.Steps.{Raises};

    ghost then = { Raises };
}

/// What a seat learns of a join that it made.
pub struct Settle;

impl<S, E> Play<Option<S>, View<E>> for Settle {
    ghost use Rattle.rh_turn.specs.Steps.{Settles};

    ghost then = { Settles };
}

/// A seat gives one of its parts to a new one.
pub struct GivePart;

impl<E> Split<View<E>> for GivePart {
    ghost use Rattle.rh_turn.specs.Steps.{kept_part, new_part};

    ghost left = { kept_part };

    ghost right = { new_part };
}

/// A seat takes another one in.
pub struct TakeIn;

impl<E> Join<View<E>> for TakeIn {
    ghost use Rattle.rh_turn.specs.Steps.{joined, spent};

    ghost both = { joined };

    ghost spent = { spent };
}
