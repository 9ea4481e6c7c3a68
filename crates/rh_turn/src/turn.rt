//! Turns: what many seats act on.

ghost use Rattle.std.specs.Prelude.{◌≡◌, ◌-◌, ◌<◌, ◌≤◌, [], Some, IfOk, IfErr};
ghost use Rattle.rh_turn.specs.History.{state_after, AreOwn, AreAll};
ghost use Rattle.rh_turn.specs.Calls.{Acts, Joins};

use crate::board::Board;
use crate::machine::Machine;
use crate::plays::Call;
use crate::rule::Opening;
use crate::seat::Seat;
use atomic_table::{Refused, Table};
use std::alloc::{AllocFailed, Global};
use std::marker::{Brand, Model};
use std::snapshot::Snapshot;
use std::sync::Wait;

/// A machine that many seats share, in an `Arc` or by reference. It takes one event at a time.
///
/// Contracts see which turn it is, the state that the machine began with, and how many parts there
/// are for all its seats. The history is in no memory: contracts see of it what each seat has seen.
#[derive(Drop)]
pub struct Turn<M: Machine> {
    board: Board<M>,
}

impl<M: Machine> Model for Turn<M> {
    ghost use Rattle.rh_turn.specs.Values.{TurnValue, turn_code};

    ghost Value = { TurnValue M.State };

    ghost coded = { turn_code M.State.code };

    ghost view = { λ t. record {
      id = t.board.table.shared.table_id;
      first = t.board.table.shared.key.first.value;
      seats = t.board.table.shared.key.seats;
    } };
}

impl<M: Machine> Turn<M> {
    /// A turn for at most `seats` seats at a time, at least 1, and its first seat, which has as
    /// many parts and has seen nothing. For want of memory the state comes back.
    pub fn new(alloc: Global, state: M::State, seats: u32) -> Result<(Turn<M>, Seat<M>), M::State>
        requires { 0 < seats }
        ensures first { IfOk result (λ made. made.0.first ≡ state) }
        ensures seats { IfOk result (λ made. made.0.seats ≡ seats) }
        ensures seat { IfOk result (λ made. made.1
            ≡ record { turn = made.0.id; seen = []; mine = []; parts = seats }) }
        ensures err { IfErr result (λ back. back ≡ state) }
    {
        let opening = Opening {
            first: Snapshot::of(&state),
            seats,
        };
        let Ok(mut slots) = Vec::with_capacity(alloc, 1) else {
            return Err(state);
        };
        if let Err(AllocFailed { value }) = slots.push(Some(state)) {
            slots.destroy_empty();
            return match value {
                Some(state) => Err(state),
                None => unreachable!(),
            };
        }
        match Table::new(alloc, &[0, 0, 0], slots, &opening) {
            Ok((table, token)) => Ok((
                Turn {
                    board: Board { table },
                },
                Seat { token },
            )),
            Err(Refused { mut slots }) => {
                let Some(Some(state)) = slots.pop() else {
                    unreachable!()
                };
                slots.destroy_empty();
                Err(state)
            }
        }
    }

    /// Waits for the turn, acts an event and answers the machine's reply. It takes no memory.
    ///
    /// The event stands at one place of the history, behind all that the seat has seen, and then
    /// the seat has seen the history up to and with it.
    pub fn act<R: Wait>(&self, rt: &R, seat: &mut Seat<M>, event: M::Event) -> M::Reply
        requires { seat.old.turn ≡ self.now.id }
        ensures acts { Acts M.next M.reply self.now.first event result seat.old seat.new }
        ensures own { AreOwn seat.new.mine seat.new.seen }
    {
        self.act_named::<Brand, R>(rt, seat, event)
    }

    /// A new seat, which has seen as much as `seat` and gets one of its parts. It needs two.
    pub fn split(&self, seat: &mut Seat<M>) -> Seat<M>
        requires turn { seat.old.turn ≡ self.now.id }
        requires parts { 2 ≤ seat.old.parts }
        ensures kept { seat.new ≡ record seat.old { parts = seat.old.parts - 1 } }
        ensures new { result ≡ record seat.old { mine = []; parts = 1 } }
    {
        let token = self.board.split(&mut seat.token);
        Seat { token }
    }

    /// Makes one seat of two, which has the places and the parts of both.
    pub fn join(&self, into: &mut Seat<M>, from: Seat<M>)
        requires turn { into.old.turn ≡ self.now.id }
        requires from_turn { from.turn ≡ self.now.id }
        ensures joins { Joins into.old from into.new }
        ensures own { AreOwn into.new.mine into.new.seen }
    {
        let Seat { token } = from;
        self.board.join(&mut into.token, token);
    }

    /// The state at the end, by the seat that has all parts: it has seen the whole history, and
    /// every place of it is its own.
    pub fn close(self, seat: Seat<M>) -> M::State
        requires turn { seat.turn ≡ self.id }
        requires parts { seat.parts ≡ self.seats }
        ensures state { result ≡ state_after M.next self.first seat.seen }
        ensures mine { AreAll seat.mine seat.seen }
    {
        let Seat { token } = seat;
        let Turn { board } = self;
        board.close(token)
    }

    // The same as `act`, where the proof knows the first state and the event by the name `C`.
    fn act_named<C: Call<M::State, M::Event>, R: Wait>(
        &self,
        rt: &R,
        seat: &mut Seat<M>,
        event: M::Event,
    ) -> M::Reply
        requires turn { seat.old.turn ≡ self.now.id }
        requires first { C.first ≡ Some self.now.first }
        requires event { C.event ≡ Some event }
        ensures acts { Acts M.next M.reply self.now.first event result seat.old seat.new }
        ensures own { AreOwn seat.new.mine seat.new.seen }
    {
        self.board.act::<C, R>(rt, &mut seat.token, event)
    }
}
