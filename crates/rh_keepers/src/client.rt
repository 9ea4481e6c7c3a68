//! How a client is kept: each leg that it wants is connected, with a cookie of its own.

ghost use Rattle.std.specs.Arc.{arc_value};
ghost use Rattle.rh_keepers.specs.Faults.{CookiesFail, NetFails};
ghost use Rattle.rh_keepers.specs.Keepers.{HasAsked, IsKeepersEnd, KeptOn, of_client};

use crate::keeper::Keeper;
use crate::plan::address_of;
use crate::telling::{heard, is_live, wants};
use rh_legs::NodeEnd;
use rh_line::{Leg, LegKind};
use rh_machines::Node;
use rh_net::{Address, Clock, Cookies, Net, Ready};
use std::sync::Wait;
use std::time;

impl<M: Node, N: Net + Drop, C: Clock + Drop, K: Cookies + Drop> Keeper<M, N, C, K>
where
    M::State: Drop,
    N::In: Ready + Drop,
    N::Out: Drop,
    N::Way: Drop,
{
    // Where a leg of this kind and number leads.
    fn address(&self, leg: Leg) -> Option<Address> {
        match leg.kind {
            LegKind::ClientIn => address_of(&self.plan.ins, leg.number),
            _ => address_of(&self.plan.outs, leg.number),
        }
    }

    // Connects a leg where it is wanted, and counts it.
    fn connect_wanted<R: Wait>(&mut self, rt: &R, leg: &mut Leg) -> NodeEnd
        ensures kept { KeptOn M.next M.reply (of_client M.reply C.moment N.counts K.answered)
            self.old.actor.turn self.new.actor.turn self.old.actor.seat self.new.actor.seat }
        ensures end { IsKeepersEnd (NetFails N.counts) (CookiesFail K.faults) result }
    {
        if !wants(rt, &mut self.actor, *leg) {
            return NodeEnd::Ended;
        }
        let Some(to) = self.address(*leg) else {
            return NodeEnd::Ended;
        };
        let Ok(cookie) = self.desk.cookie(rt) else {
            self.actor.bell.stop(rt);
            return NodeEnd::CookieFault;
        };
        let end = self.connect(rt, *leg, cookie, &to);
        leg.number = leg.number.saturating_add(1);
        end
    }

    /// Keeps a client until it ended, closed or was stopped.
    pub(crate) fn keep_client<R: Wait + time::Clock>(&mut self, rt: &R) -> NodeEnd
        ensures kept { KeptOn M.next M.reply (of_client M.reply C.moment N.counts K.answered)
            self.old.actor.turn self.new.actor.turn self.old.actor.seat self.new.actor.seat }
        ensures end { IsKeepersEnd (NetFails N.counts) (CookiesFail K.faults) result }
        ensures left { HasAsked M.next M.reply
            (arc_value self.old.actor.turn).first self.new.actor.seat }
    {
        let mut next_out = Leg {
            kind: LegKind::ClientOut,
            number: 1,
        };
        let mut next_in = Leg {
            kind: LegKind::ClientIn,
            number: 1,
        };
        let mut end = NodeEnd::Ended;
        self.tick(rt);
        'rounds: for _ in rt.forever() {
            let heard = heard(rt, &mut self.actor);
            self.tick_in_time(rt);
            end = end.or(self.connect_wanted(rt, &mut next_out));
            end = end.or(self.connect_wanted(rt, &mut next_in));
            if !is_live(rt, &mut self.actor) {
                return end;
            }
            self.rest(rt, heard);
        }
        unreachable!()
    }
}
