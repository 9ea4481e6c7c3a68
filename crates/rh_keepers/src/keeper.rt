//! The keeper of a node: it has the node's legs connected or accepts them, and tells the moment.

ghost use Rattle.std.specs.Prelude.{◌≡◌};
ghost use Rattle.std.specs.Arc.{arc_value};
ghost use Rattle.rh_keepers.specs.Faults.{CookiesFail, NetFails};
ghost use Rattle.rh_keepers.specs.Keepers.{BringsUp, Connects, HasAsked, IsKeepersEnd, KeptOn, moments, of_role};

use crate::desk::Desk;
use crate::plan::Plan;
use crate::queue::Queue;
use crate::telling::{tell_broken, tell_moment, tell_up};
use rh_actors::Actor;
use rh_legs::{Call, NodeEnd};
use rh_line::Leg;
use rh_machines::{Node, Role};
use rh_net::{Address, Clock, Cookies, Net, Ready, ShutSink, ShutSource, Way};
use rh_rts::Cookie;
use rh_slots::{First, Slot, ToRead, ToWrite};
use std::alloc::Global;
use std::sync::{Arc, Wait};
use std::thread;
use std::time::{self, Duration};

/// After how long a keeper tells the moment again, in milliseconds.
pub(crate) const TICK_AFTER: u64 = 1000;

/// How long a keeper pauses between two looks at its node, in milliseconds: it would act after each
/// event else, since no event tells that a leg is wanted.
const PAUSE: u64 = 2;

/// What keeps a node.
#[derive(Drop)]
pub struct Keeper<M: Node, N: Net + Drop, C: Clock + Drop, K: Cookies + Drop>
where
    M::State: Drop,
    N::In: Drop,
    N::Out: Drop,
    N::Way: Drop,
{
    /// By whom it acts.
    pub actor: Actor<M>,
    /// What it shares with the keepers of other nodes.
    pub desk: Desk<N, C, K>,
    /// Where it waits for its turn to take a caller, at a proxy.
    pub queue: Arc<Queue, Global>,
    /// Its ticket of the queue.
    pub ticket: u64,
    /// The slots of its node.
    pub slots: Vec<Slot<N::In, N::Out>>,
    /// Where it listens, and which proxies it uses.
    pub plan: Plan,
    /// By which its legs come.
    pub way: N::Way,
    /// The number of the node's channel, at a proxy.
    pub number: u32,
    /// When the moment was told last, in milliseconds.
    pub told: u64,
    /// The streams of a caller whose first read failed, at a proxy.
    pub failed: Option<(N::In, N::Out)>,
    /// The first address at which the net failed.
    pub unreached: Option<Address>,
}

/// A leg that came: what was read of it first, and its streams.
#[derive(Drop)]
pub(crate) struct Came<I: Drop, O: Drop> {
    pub first: First,
    pub source: I,
    pub sink: O,
}

/// Shuts the streams of a leg that no slot gets.
pub(crate) fn shut<I: ShutSource, O: ShutSink>(source: &mut I, sink: &mut O) {
    sink.shut();
    source.shut();
}

/// How the node ends where the net failed at this address. The first such one is kept.
pub(crate) fn net_failed(unreached: &mut Option<Address>, at: Option<Address>) -> NodeEnd
    ensures { result ≡ NodeEnd.NetFault }
{
    if unreached.is_none() {
        *unreached = at;
    }
    NodeEnd::NetFault
}

impl<M: Node, N: Net + Drop, C: Clock + Drop, K: Cookies + Drop> Keeper<M, N, C, K>
where
    M::State: Drop,
    N::In: Ready + Drop,
    N::Out: Drop,
    N::Way: Drop,
{
    /// Tells the moment.
    pub(crate) fn tick<R: Wait>(&mut self, rt: &R)
        ensures { KeptOn M.next M.reply (moments C.moment) self.old.actor.turn self.new.actor.turn
            self.old.actor.seat self.new.actor.seat }
    {
        let now = self.desk.now(rt);
        self.told = now;
        tell_moment(rt, &mut self.actor, now);
    }

    /// Tells the moment, where it was told a second ago or more.
    pub(crate) fn tick_in_time<R: Wait>(&mut self, rt: &R)
        ensures { KeptOn M.next M.reply (moments C.moment) self.old.actor.turn self.new.actor.turn
            self.old.actor.seat self.new.actor.seat }
    {
        let now = self.desk.now(rt);
        if TICK_AFTER <= now.saturating_sub(self.told) {
            self.told = now;
            tell_moment(rt, &mut self.actor, now);
        }
    }

    /// Waits until the keeper was called more often than `heard`, a second at most.
    pub(crate) fn rest<R: Wait + time::Clock>(&self, rt: &R, heard: u64) {
        thread::sleep(rt, Duration::from_millis(PAUSE));
        let most = Duration::from_millis(TICK_AFTER);
        self.actor.bell.wait_for(rt, Call::Keeps, heard, most);
    }

    // The slot of a leg, by its number among those of its kind.
    fn slot(&self, leg: Leg) -> Option<&Slot<N::In, N::Out>> {
        let mut before = match M::ROLE {
            Role::Client => leg.number % 2,
            Role::Server => leg.number % 4,
            Role::InProxy | Role::OutProxy => 0,
        };
        for slot in self.slots.iter() {
            if slot.kind == leg.kind {
                if before == 0 {
                    return Some(slot);
                }
                before -= 1;
            }
        }
        None
    }

    // Hands a leg that is up to its slot, and shuts one that is not.
    fn hand<R: Wait>(&self, rt: &R, leg: Leg, is_up: bool, came: Came<N::In, N::Out>) {
        let Came {
            first,
            mut source,
            mut sink,
        } = came;
        if !is_up {
            shut(&mut source, &mut sink);
        } else if let Some(slot) = self.slot(leg) {
            slot.hand(rt, ToRead { leg, first, source }, ToWrite { leg, sink });
        }
    }

    /// Tells that a leg is up, and hands it to its slot. Answers false, with the leg shut, where it
    /// may not be up.
    pub(crate) fn bring_up<R: Wait>(
        &mut self,
        rt: &R,
        leg: Leg,
        cookie: Cookie,
        came: Came<N::In, N::Out>,
    ) -> bool
        ensures { BringsUp M.next M.reply C.moment leg cookie result
            self.old.actor.turn self.new.actor.turn self.old.actor.seat self.new.actor.seat }
    {
        let now = self.desk.now(rt);
        self.told = now;
        let is_up = tell_up(rt, &mut self.actor, now, leg, cookie);
        self.hand(rt, leg, is_up, came);
        is_up
    }

    /// Connects a leg that is wanted, and brings it up; or tells that it can't be connected.
    pub(crate) fn connect<R: Wait>(
        &mut self,
        rt: &R,
        leg: Leg,
        cookie: Cookie,
        to: &Address,
    ) -> NodeEnd
        ensures { Connects M.next M.reply C.moment (NetFails N.counts) leg cookie result
            self.old.actor.turn self.new.actor.turn self.old.actor.seat self.new.actor.seat }
    {
        let came = self.way.connect(to);
        let Ok((source, sink)) = self.desk.leg(rt, came) else {
            tell_broken(rt, &mut self.actor, leg);
            return net_failed(&mut self.unreached, Some(*to));
        };
        let came = Came {
            first: First::new(),
            source,
            sink,
        };
        self.bring_up(rt, leg, cookie, came);
        NodeEnd::Ended
    }

    // Keeps the node as its role is kept.
    fn keep<R: Wait + time::Clock>(&mut self, alloc: Global, rt: &R) -> NodeEnd
        ensures kept { KeptOn M.next M.reply
            (of_role M.ROLE M.reply C.moment N.counts K.answered N.In.faults)
            self.old.actor.turn self.new.actor.turn self.old.actor.seat self.new.actor.seat }
        ensures end { IsKeepersEnd (NetFails N.counts) (CookiesFail K.faults) result }
        ensures left { result ≡ NodeEnd.Ended → HasAsked M.next M.reply
            (arc_value self.old.actor.turn).first self.new.actor.seat }
    {
        match M::ROLE {
            Role::Client => return self.keep_client(rt),
            Role::InProxy => return self.keep_proxy(rt),
            Role::OutProxy => return self.keep_proxy(rt),
            Role::Server => return self.keep_server(alloc, rt),
        }
    }

    /// Keeps the node until it ended, closed or was stopped. Answers why it was left.
    pub fn run<R: Wait + time::Clock>(&mut self, alloc: Global, rt: &R) -> NodeEnd
        ensures kept { KeptOn M.next M.reply
            (of_role M.ROLE M.reply C.moment N.counts K.answered N.In.faults)
            self.old.actor.turn self.new.actor.turn self.old.actor.seat self.new.actor.seat }
        ensures end { IsKeepersEnd (NetFails N.counts) (CookiesFail K.faults) result }
        ensures left { result ≡ NodeEnd.Ended → HasAsked M.next M.reply
            (arc_value self.old.actor.turn).first self.new.actor.seat }
    {
        let end = self.keep(alloc, rt);
        for slot in self.slots.iter() {
            slot.end(rt);
        }
        end
    }
}
