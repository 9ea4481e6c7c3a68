//! The lines by which a leg is lost.

ghost use Rattle.std.specs.Prelude.{◌≡◌, IfOk, OnOk};
ghost use Rattle.rh_company.specs.Company.{rules_of};
ghost use Rattle.rh_nodes.specs.Breaking as seen;

use crate::nodes::Nodes;
use rh_company::{Cast, Event};
use rh_line::Leg;
use rh_record::{Dir, Side};
use rh_wires::{receiver, sender};
use std::alloc::AllocError;

impl<K: Cast> Nodes<K> {
    /// An end of a leg is told that it is lost, where it was up for it, and it is down then.
    pub(crate) fn lose(&mut self, leg: Leg, side: Side, event: &Event) -> Result<(), AllocError>
        ensures { OnOk result (self.new ≡ seen.lose
            (rules_of K.Client.rules K.Server.rules K.InProxy.rules K.OutProxy.rules)
            self.old leg side event.now) }
    {
        if self.legs.is_up(leg, side) {
            let who = self.at(leg, side);
            self.tell(who, event)?;
            self.company.leave(who);
            self.legs.lower(leg, side);
        }
        Ok(())
    }

    /// Whether a leg is up for one of its ends.
    pub(crate) fn is_up(&self, leg: Leg) -> bool
        ensures { result ≡ seen.is_up self.entry.now leg }
    {
        self.legs.is_up(leg, Side::Client) || self.legs.is_up(leg, Side::Server)
    }

    /// The node that wants a leg is told that it cannot be connected. Answers whether one wants it.
    fn refuse(&mut self, leg: Leg) -> Result<bool, AllocError>
        ensures { IfOk result (λ ok. (self.new, ok) ≡ seen.refuse
            (rules_of K.Client.rules K.Server.rules K.InProxy.rules K.OutProxy.rules)
            self.old leg) }
    {
        let (client, server) = (self.at(leg, Side::Client), self.at(leg, Side::Server));
        if self.company.wants(client, leg) {
            self.tell(client, &Event::Breaks(leg))?;
            return Ok(true);
        }
        if self.company.wants(server, leg) {
            self.tell(server, &Event::Breaks(leg))?;
            return Ok(true);
        }
        Ok(false)
    }

    /// A leg fails: both ends are told so, and what is in flight is lost. A leg that is wanted
    /// cannot be connected. Answers whether it was one of these.
    pub(crate) fn break_leg(&mut self, leg: Leg) -> Result<bool, AllocError>
        ensures { IfOk result (λ ok. (self.new, ok) ≡ seen.break_leg
            (rules_of K.Client.rules K.Server.rules K.InProxy.rules K.OutProxy.rules)
            self.old leg) }
    {
        if !self.is_up(leg) {
            return self.refuse(leg);
        }
        let event = Event::Breaks(leg);
        self.lose(leg, Side::Client, &event)?;
        self.lose(leg, Side::Server, &event)?;
        Ok(true)
    }

    /// The end that puts what goes in this direction ends a leg in order, where nothing is in
    /// flight there: it is told that the leg is lost to it, and then the other end that it ended.
    /// Answers whether it did.
    pub(crate) fn end_leg(&mut self, leg: Leg, dir: Dir) -> Result<bool, AllocError>
        ensures { IfOk result (λ ok. (self.new, ok) ≡ seen.end_leg
            (rules_of K.Client.rules K.Server.rules K.InProxy.rules K.OutProxy.rules)
            self.old leg dir) }
    {
        if !self.is_up(leg) || !self.legs.is_clear(leg, dir) {
            return Ok(false);
        }
        self.lose(leg, sender(dir), &Event::Breaks(leg))?;
        self.lose(leg, receiver(dir), &Event::Ends(leg))?;
        Ok(true)
    }
}
