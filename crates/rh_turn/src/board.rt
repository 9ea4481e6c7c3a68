//! The board of a turn, and the kinds of step on it, one function each.

ghost use Rattle.std.specs.Prelude.{◌≡◌, ◌<◌, ◌≤◌, [], ◌∷◌, Some, None, MatchBool};
ghost use Rattle.rh_turn.specs.declared.view.Stage.TheVariants.{Idle, Waiting, Holding, Entered};
ghost use Rattle.rh_turn.specs.History.{state_after, AreOwn, AreAll};
ghost use Rattle.rh_turn.specs.Values.{seat_value, IsAtRest};
ghost use Rattle.rh_turn.specs.Calls.{Acts, Joins};
ghost use Rattle.rh_turn.specs.Steps.{waiting, entered, idle, kept_part, new_part, TakesTurn};

use crate::machine::Machine;
use crate::plays::{Call, Draw, Enter, GivePart, Look, Raise, Settle, TakeIn};
use crate::rule::{Opening, TurnRule};
use crate::view::View;
use atomic_table::{Seat, Table};
use std::alloc::Global;
use std::sync::Wait;
use std::thread;

/// Of a seat, what steps on the board.
pub(crate) type Token<M> = Seat<Option<<M as Machine>::State>, View<<M as Machine>::Event>>;

// The words: how many tickets were drawn, which one is served, how many events were entered.
const TICKETS: usize = 0;

const SERVING: usize = 1;

const ENTRIES: usize = 2;

// The slot: the state, or nothing while it is with the seat that holds the turn.
const STATE: usize = 0;

/// Three words and a slot, which all seats share.
#[derive(Drop)]
pub(crate) struct Board<M: Machine> {
    pub(crate) table: Table<
        Option<M::State>,
        View<M::Event>,
        Opening<M::State>,
        TurnRule<M>,
        Global,
    >,
    ghost shape: { (table.shared.table_id.words ≡ 3) × (table.shared.table_id.slots ≡ 1) },
}

impl<M: Machine> Board<M> {
    /// One call, under one ticket.
    pub(crate) fn act<C: Call<M::State, M::Event>, R: Wait>(
        &self,
        rt: &R,
        token: &mut Token<M>,
        event: M::Event,
    ) -> M::Reply
        requires table { token.old.table_id ≡ self.now.table.shared.table_id }
        requires at_rest { IsAtRest token.old.me }
        requires first { C.first ≡ Some self.now.table.shared.key.first.value }
        requires event { C.event ≡ Some event }
        ensures table { token.new.table_id ≡ token.old.table_id }
        ensures at_rest { IsAtRest token.new.me }
        ensures acts { Acts M.next M.reply self.now.table.shared.key.first.value event result
            (seat_value token.old.table_id token.old.me.0)
            (seat_value token.new.table_id token.new.me.0) }
        ensures own { AreOwn token.new.me.0.mine token.new.me.0.seen }
    {
        let ticket = self.draw(rt, token);
        self.wait::<C, R>(rt, token, ticket);
        let mut state = self.take(token);
        self.enter::<C>(token, &event);
        let reply = M::act(&mut state, event);
        self.put(token, state);
        self.raise(token);
        reply
    }

    /// Gives one part to a new token.
    pub(crate) fn split(&self, token: &mut Token<M>) -> Token<M>
        requires table { token.old.table_id ≡ self.now.table.shared.table_id }
        requires at_rest { IsAtRest token.old.me }
        requires parts { 2 ≤ token.old.me.0.parts }
        ensures table { token.new.table_id ≡ token.old.table_id }
        ensures new_table { result.table_id ≡ token.old.table_id }
        ensures kept { token.new.me ≡ (kept_part token.old.me.0, []) }
        ensures new { result.me ≡ (new_part token.old.me.0, []) }
    {
        self.table.shared.split_seat::<GivePart>(token)
    }

    /// Takes another token in.
    pub(crate) fn join(&self, token: &mut Token<M>, other: Token<M>)
        requires table { token.old.table_id ≡ self.now.table.shared.table_id }
        requires other_table { other.table_id ≡ self.now.table.shared.table_id }
        requires at_rest { IsAtRest token.old.me }
        requires other_at_rest { IsAtRest other.me }
        ensures table { token.new.table_id ≡ token.old.table_id }
        ensures at_rest { IsAtRest token.new.me }
        ensures joins { Joins (seat_value token.old.table_id token.old.me.0)
            (seat_value other.table_id other.me.0)
            (seat_value token.new.table_id token.new.me.0) }
        ensures own { AreOwn token.new.me.0.mine token.new.me.0.seen }
    {
        self.table.shared.join_seat::<TakeIn>(token, other);
        self.table.shared.load::<Settle>(token, TICKETS);
    }

    /// The state at the end, by the token that has all parts.
    pub(crate) fn close(self, token: Token<M>) -> M::State
        requires table { token.table_id ≡ self.table.shared.table_id }
        requires at_rest { IsAtRest token.me }
        requires parts { token.me.0.parts ≡ self.table.shared.key.seats }
        ensures state { result
            ≡ state_after M.next self.table.shared.key.first.value token.me.0.seen }
        ensures mine { AreAll token.me.0.mine token.me.0.seen }
    {
        let Board { table } = self;
        let mut closed = table.close_with(token);
        let state = closed.take(STATE);
        closed.free();
        match state {
            Some(state) => state,
            None => unreachable!(),
        }
    }

    // Draws a ticket. At the greatest number it is never won, and this doesn't return.
    fn draw<R: Wait>(&self, rt: &R, token: &mut Token<M>) -> u64
        requires table { token.old.table_id ≡ self.now.table.shared.table_id }
        requires idle { token.old.me.0.stage ≡ Idle }
        requires some_part { 0 < token.old.me.0.parts }
        ensures table { token.new.table_id ≡ token.old.table_id }
        ensures drawn { token.new.me ≡ (waiting token.old.me.0 result, token.old.me.1) }
    {
        let words = &self.table.shared;
        let mut tickets = words.peek(TICKETS);
        for _ in rt.forever() {
            if tickets == u64::MAX {
                tickets = words.peek(TICKETS);
            } else {
                let found = words.compare_exchange::<Draw>(token, TICKETS, tickets, tickets + 1);
                if found == tickets {
                    return found;
                }
                tickets = found;
            }
        }
        unreachable!()
    }

    // Looks until the ticket is served.
    fn wait<C: Call<M::State, M::Event>, R: Wait>(&self, rt: &R, token: &mut Token<M>, ticket: u64)
        requires table { token.old.table_id ≡ self.now.table.shared.table_id }
        requires first { C.first ≡ Some self.now.table.shared.key.first.value }
        requires waiting { (token.old.me.0.stage ≡ Waiting) × (token.old.me.0.ticket ≡ ticket) }
        requires some_part { 0 < token.old.me.0.parts }
        ensures table { token.new.table_id ≡ token.old.table_id }
        ensures taken { TakesTurn M.next self.now.table.shared.key.first.value
            token.old.me token.new.me }
    {
        for _ in rt.forever() {
            if self.look::<C>(token, ticket) {
                return;
            }
            thread::yield_now();
        }
        unreachable!()
    }

    // Looks whether the ticket is served. Where it is, the same step takes the slot.
    fn look<C: Call<M::State, M::Event>>(&self, token: &mut Token<M>, ticket: u64) -> bool
        requires table { token.old.table_id ≡ self.now.table.shared.table_id }
        requires first { C.first ≡ Some self.now.table.shared.key.first.value }
        requires waiting { (token.old.me.0.stage ≡ Waiting) × (token.old.me.0.ticket ≡ ticket) }
        requires some_part { 0 < token.old.me.0.parts }
        ensures table { token.new.table_id ≡ token.old.table_id }
        ensures looked { MatchBool result
            (TakesTurn M.next self.now.table.shared.key.first.value token.old.me token.new.me)
            (token.new.me ≡ token.old.me) }
    {
        self.table.shared.load::<Look<M, C>>(token, SERVING) == ticket
    }

    // Takes the state out of the slot.
    fn take(&self, token: &mut Token<M>) -> M::State
        requires table { token.old.table_id ≡ self.now.table.shared.table_id }
        requires slot { (state : _) × (token.old.me.1 ≡ (0, Some state) ∷ []) }
        ensures table { token.new.table_id ≡ token.old.table_id }
        ensures state { token.old.me.1 ≡ (0, Some result) ∷ [] }
        ensures taken { token.new.me ≡ (token.old.me.0, (0, None) ∷ []) }
    {
        match self.table.shared.exchange(token, STATE, None) {
            Some(state) => state,
            None => unreachable!(),
        }
    }

    // Enters an event behind all others.
    fn enter<C: Call<M::State, M::Event>>(&self, token: &mut Token<M>, event: &M::Event)
        requires table { token.old.table_id ≡ self.now.table.shared.table_id }
        requires event { C.event ≡ Some event.now }
        requires holding { token.old.me.0.stage ≡ Holding }
        requires some_part { 0 < token.old.me.0.parts }
        ensures table { token.new.table_id ≡ token.old.table_id }
        ensures entered { token.new.me ≡ (entered token.old.me.0 event.now, token.old.me.1) }
    {
        let _ = event;
        self.table
            .shared
            .fetch_add::<Enter<M, C>>(token, ENTRIES, 1);
    }

    // Puts a state into the slot.
    fn put(&self, token: &mut Token<M>, state: M::State)
        requires table { token.old.table_id ≡ self.now.table.shared.table_id }
        requires slot { token.old.me.1 ≡ (0, None) ∷ [] }
        ensures table { token.new.table_id ≡ token.old.table_id }
        ensures put { token.new.me ≡ (token.old.me.0, (0, Some state) ∷ []) }
    {
        match self.table.shared.exchange(token, STATE, Some(state)) {
            None => {}
            Some(_) => unreachable!(),
        }
    }

    // Serves the next ticket. The same step gives the slot back.
    fn raise(&self, token: &mut Token<M>)
        requires table { token.old.table_id ≡ self.now.table.shared.table_id }
        requires entered { token.old.me.0.stage ≡ Entered }
        requires some_part { 0 < token.old.me.0.parts }
        requires state { token.old.me.1 ≡ (
          0,
          Some (state_after M.next
              self.now.table.shared.key.first.value token.old.me.0.seen),
        ) ∷ [] }
        ensures table { token.new.table_id ≡ token.old.table_id }
        ensures raised { token.new.me ≡ (idle token.old.me.0, []) }
        ensures own { AreOwn token.new.me.0.mine token.new.me.0.seen }
    {
        self.table.shared.fetch_add::<Raise>(token, SERVING, 1);
    }
}
