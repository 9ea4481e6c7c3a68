//! How a proxy is kept: one client's leg is accepted, and the server's leg is connected when it is
//! wanted.

ghost use Rattle.std.specs.Prelude.{◌≡◌, IfOk, IfErr, IfNone, OnErr};
ghost use Rattle.std.specs.Arc.{arc_value};
ghost use Rattle.rh_io.specs.Counts.{Rose};
ghost use Rattle.rh_net.specs.Calls.{IsUnused};
ghost use Rattle.rh_keepers.specs.Faults.{CookiesFail, NetFails};
ghost use Rattle.rh_keepers.specs.Keepers.{HasAsked, IsKeepersEnd, KeptOn, no_causes, of_others};

use crate::keeper::{Came, Keeper, net_failed, shut};
use crate::telling::{heard, is_live, target, tell_broken, tell_up, wants};
use rh_actors::Actor;
use rh_io::SourceFailed;
use rh_legs::NodeEnd;
use rh_line::{Leg, LegKind};
use rh_machines::{Node, Role};
use rh_net::{Clock, Cookies, Net, Ready, Way};
use rh_rts::NO_COOKIE;
use rh_slots::First;
use std::sync::Wait;
use std::time;

/// How long the first bytes of a caller may take, in looks of a second.
const FIRST_LOOKS: u32 = 5;

/// How long one look takes, in milliseconds.
const LOOK: u32 = 1000;

// Waits for the first bytes of a caller; `None` where it ended, or was silent.
fn first_of<I: Ready>(source: &mut I) -> Result<Option<First>, SourceFailed>
    ensures { OnErr result (Rose (I.faults source.old) (I.faults source.new)) }
{
    'looks: for _ in 0..FIRST_LOOKS {
        if source.ready(LOOK) {
            let mut first = First::new();
            let count = first.read(source)?;
            return Ok(if count == 0 { None } else { Some(first) });
        }
    }
    Ok(None)
}

// What comes next by a way; `None` where the node goes on no more.
fn next_of<M: Node, W: Way, R: Wait>(rt: &R, actor: &mut Actor<M>, way: &mut W) -> Option<W::Came>
where
    M::State: Drop,
    ensures kept { KeptOn M.next M.reply no_causes actor.old.turn actor.new.turn
        actor.old.seat actor.new.seat }
    ensures left { IfNone result (HasAsked M.next M.reply
        (arc_value actor.old.turn).first actor.new.seat) }
{
    'waits: for _ in rt.forever() {
        if let Some(came) = way.accept() {
            return Some(came);
        }
        if !is_live(rt, actor) {
            return None;
        }
    }
    unreachable!()
}

impl<M: Node, N: Net + Drop, C: Clock + Drop, K: Cookies + Drop> Keeper<M, N, C, K>
where
    M::State: Drop,
    N::In: Ready + Drop,
    N::Out: Drop,
    N::Way: Drop,
{
    // The leg of the next caller. Answers how the node ends where it goes on no more, or the net
    // failed.
    fn accept<R: Wait>(&mut self, rt: &R) -> Result<(N::In, N::Out), NodeEnd>
        ensures new { IfOk result
            (IsUnused N.In.taken N.In.faults N.In.ends N.Out.written N.Out.faults) }
        ensures end { IfErr result (IsKeepersEnd (NetFails N.counts) (CookiesFail K.faults)) }
        ensures left { IfErr result (λ end. end ≡ NodeEnd.Ended → HasAsked M.next M.reply
            (arc_value self.old.actor.turn).first self.new.actor.seat) }
        ensures kept { KeptOn M.next M.reply no_causes self.old.actor.turn self.new.actor.turn
            self.old.actor.seat self.new.actor.seat }
    {
        let Some(came) = next_of(rt, &mut self.actor, &mut self.way) else {
            return Err(NodeEnd::Ended);
        };
        let Ok(leg) = self.desk.leg(rt, came) else {
            return Err(net_failed(&mut self.unreached, self.plan.at));
        };
        Ok(leg)
    }

    // Accepts a caller, in turn with the other keepers.
    fn accept_in_turn<R: Wait>(&mut self, rt: &R) -> Result<(N::In, N::Out), NodeEnd>
        ensures new { IfOk result
            (IsUnused N.In.taken N.In.faults N.In.ends N.Out.written N.Out.faults) }
        ensures end { IfErr result (IsKeepersEnd (NetFails N.counts) (CookiesFail K.faults)) }
        ensures left { IfErr result (λ end. end ≡ NodeEnd.Ended → HasAsked M.next M.reply
            (arc_value self.old.actor.turn).first self.new.actor.seat) }
        ensures kept { KeptOn M.next M.reply no_causes self.old.actor.turn self.new.actor.turn
            self.old.actor.seat self.new.actor.seat }
    {
        self.queue.wait(rt, self.ticket);
        let leg = self.accept(rt);
        self.queue.leave(rt);
        leg
    }

    // Tells a caller's leg up and broken, whose first read failed, and keeps its streams.
    fn lose_client<R: Wait>(&mut self, rt: &R, leg: Leg, source: N::In, sink: N::Out)
        requires { Rose 0 (N.In.faults source) }
        ensures { KeptOn M.next M.reply (of_others M.reply C.moment N.counts N.In.faults)
            self.old.actor.turn self.new.actor.turn self.old.actor.seat self.new.actor.seat }
    {
        let mut source = source;
        let mut sink = sink;
        let now = self.desk.now(rt);
        self.told = now;
        tell_up(rt, &mut self.actor, now, leg, NO_COOKIE);
        tell_broken(rt, &mut self.actor, leg);
        shut(&mut source, &mut sink);
        self.failed = Some((source, sink));
    }

    // Brings the leg of a caller up. Answers false where it said nothing, and the leg is shut.
    fn meet_client<R: Wait>(&mut self, rt: &R, leg: Leg, source: N::In, sink: N::Out) -> bool
        requires { N.In.faults source ≡ 0 }
        ensures { KeptOn M.next M.reply (of_others M.reply C.moment N.counts N.In.faults)
            self.old.actor.turn self.new.actor.turn self.old.actor.seat self.new.actor.seat }
    {
        let mut source = source;
        let mut sink = sink;
        match first_of(&mut source) {
            Ok(Some(first)) => {
                let came = Came {
                    first,
                    source,
                    sink,
                };
                self.bring_up(rt, leg, NO_COOKIE, came);
                return true;
            }
            Ok(None) => {
                shut(&mut source, &mut sink);
                return false;
            }
            Err(_) => {
                self.lose_client(rt, leg, source, sink);
                return true;
            }
        }
    }

    // Accepts callers until one speaks. Answers how the node ends where none will.
    fn accept_client<R: Wait>(&mut self, rt: &R, leg: Leg) -> Result<(), NodeEnd>
        ensures kept { KeptOn M.next M.reply (of_others M.reply C.moment N.counts N.In.faults)
            self.old.actor.turn self.new.actor.turn self.old.actor.seat self.new.actor.seat }
        ensures end { IfErr result (IsKeepersEnd (NetFails N.counts) (CookiesFail K.faults)) }
        ensures left { IfErr result (λ end. end ≡ NodeEnd.Ended → HasAsked M.next M.reply
            (arc_value self.old.actor.turn).first self.new.actor.seat) }
    {
        'callers: for _ in rt.forever() {
            let (source, sink) = match self.accept_in_turn(rt) {
                Ok(streams) => streams,
                Err(end) => return Err(end),
            };
            if self.meet_client(rt, leg, source, sink) {
                return Ok(());
            }
            self.ticket = self.queue.ticket(rt);
        }
        unreachable!()
    }

    // Connects the server's leg where it is wanted.
    fn connect_server<R: Wait>(&mut self, rt: &R, leg: Leg) -> NodeEnd
        ensures kept { KeptOn M.next M.reply (of_others M.reply C.moment N.counts N.In.faults)
            self.old.actor.turn self.new.actor.turn self.old.actor.seat self.new.actor.seat }
        ensures end { IsKeepersEnd (NetFails N.counts) (CookiesFail K.faults) result }
    {
        if !wants(rt, &mut self.actor, leg) {
            return NodeEnd::Ended;
        }
        let Some(to) = target(rt, &mut self.actor) else {
            return NodeEnd::Ended;
        };
        self.connect(rt, leg, NO_COOKIE, &to)
    }

    // Keeps a proxy whose client came.
    fn keep_met<R: Wait + time::Clock>(&mut self, rt: &R, server: Leg) -> NodeEnd
        ensures kept { KeptOn M.next M.reply (of_others M.reply C.moment N.counts N.In.faults)
            self.old.actor.turn self.new.actor.turn self.old.actor.seat self.new.actor.seat }
        ensures end { IsKeepersEnd (NetFails N.counts) (CookiesFail K.faults) result }
        ensures left { HasAsked M.next M.reply
            (arc_value self.old.actor.turn).first self.new.actor.seat }
    {
        let mut end = NodeEnd::Ended;
        'rounds: for _ in rt.forever() {
            let heard = heard(rt, &mut self.actor);
            self.tick_in_time(rt);
            end = end.or(self.connect_server(rt, server));
            if !is_live(rt, &mut self.actor) {
                return end;
            }
            self.rest(rt, heard);
        }
        unreachable!()
    }

    /// Keeps a proxy until it ended, closed or was stopped.
    pub(crate) fn keep_proxy<R: Wait + time::Clock>(&mut self, rt: &R) -> NodeEnd
        ensures kept { KeptOn M.next M.reply (of_others M.reply C.moment N.counts N.In.faults)
            self.old.actor.turn self.new.actor.turn self.old.actor.seat self.new.actor.seat }
        ensures end { IsKeepersEnd (NetFails N.counts) (CookiesFail K.faults) result }
        ensures left { result ≡ NodeEnd.Ended → HasAsked M.next M.reply
            (arc_value self.old.actor.turn).first self.new.actor.seat }
    {
        let number = self.number;
        let (near, far) = match M::ROLE {
            Role::OutProxy => (LegKind::ClientOut, LegKind::OutServer),
            _ => (LegKind::ClientIn, LegKind::InServer),
        };
        match self.accept_client(rt, Leg { kind: near, number }) {
            Ok(()) => return self.keep_met(rt, Leg { kind: far, number }),
            Err(end) => {
                self.actor.stop_at(rt, end);
                return end;
            }
        }
    }
}
