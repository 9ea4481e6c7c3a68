//! Half steps: one node alone is told something, as it may be where roles run apart.

ghost use Rattle.std.specs.Prelude.{◌≡◌, IfOk, OnOk};
ghost use Rattle.rh_company.specs.Company.{rules_of};
ghost use Rattle.rh_nodes.specs.Halves as seen;
ghost use Rattle.rh_nodes.specs.Opening.{makers_of};

use crate::nodes::Nodes;
use rh_company::{Cast, Event};
use rh_line::{Leg, LegKind};
use rh_record::{Side, Who};
use rh_rts::Cookie;
use std::alloc::{AllocError, Global};

/// What one node alone is told.
#[derive(Clone, Copy, Debug, PartialEq, Eq)]
pub enum Half {
    /// The leg is up for it. The cookie is that of a leg of the client, and is passed over at
    /// another node.
    Up { who: Who, leg: Leg, cookie: Cookie },
    /// The leg failed, or it is wanted and cannot be connected.
    Broken { who: Who, leg: Leg },
    /// The other side ended the leg in order.
    Ended { who: Who, leg: Leg },
    /// The moment, in milliseconds.
    Tick { who: Who, now: u64 },
}

/// Whether two are the same node.
fn is_same(a: Who, b: Who) -> bool
    ensures { result ≡ seen.is_same a b }
{
    match (a, b) {
        (Who::Client, Who::Client) => true,
        (Who::Server, Who::Server) => true,
        (Who::In(a), Who::In(b)) => a == b,
        (Who::Out(a), Who::Out(b)) => a == b,
        _ => false,
    }
}

impl<K: Cast> Nodes<K> {
    /// The end of a leg at which a node stands.
    fn end_of(&self, who: Who, leg: Leg) -> Option<Side>
        ensures { result ≡ seen.end_of self.entry.now who leg }
    {
        if is_same(who, self.at(leg, Side::Client)) {
            Some(Side::Client)
        } else if is_same(who, self.at(leg, Side::Server)) {
            Some(Side::Server)
        } else {
            None
        }
    }

    /// The out proxy of a leg of the client is made, where none was.
    fn make_new_out(&mut self, alloc: Global, number: u32) -> Result<(), AllocError>
        ensures { OnOk result (self.new ≡ seen.make_out
            (rules_of K.Client.rules K.Server.rules K.InProxy.rules K.OutProxy.rules)
            (makers_of K.in_proxy K.out_proxy) self.old number) }
    {
        if number > 0 && self.company.outs.is_absent(number) {
            let node = self.new_out(alloc, number)?;
            self.make_out(number, node)?;
        }
        Ok(())
    }

    /// The in proxy of a leg of the client is made, where none was.
    fn make_new_in(&mut self, alloc: Global, number: u32) -> Result<(), AllocError>
        ensures { OnOk result (self.new ≡ seen.make_in
            (rules_of K.Client.rules K.Server.rules K.InProxy.rules K.OutProxy.rules)
            (makers_of K.in_proxy K.out_proxy) self.old number) }
    {
        if number > 0 && self.company.ins.is_absent(number) {
            let node = self.new_in(alloc, number)?;
            self.make_in(number, node)?;
        }
        Ok(())
    }

    /// A proxy is made for a leg of the client, where none was.
    fn make_proxy(&mut self, alloc: Global, leg: Leg) -> Result<(), AllocError>
        ensures { OnOk result (self.new ≡ seen.make_proxy
            (rules_of K.Client.rules K.Server.rules K.InProxy.rules K.OutProxy.rules)
            (makers_of K.in_proxy K.out_proxy) self.old leg) }
    {
        match leg.kind {
            LegKind::ClientOut => self.make_new_out(alloc, leg.number),
            LegKind::ClientIn => self.make_new_in(alloc, leg.number),
            LegKind::OutServer | LegKind::InServer => Ok(()),
        }
    }

    /// The client alone is told that a leg is up.
    fn up_client(&mut self, alloc: Global, leg: Leg, cookie: Cookie) -> Result<bool, AllocError>
        ensures { IfOk result (λ ok. (self.new, ok) ≡ seen.up_client
            (rules_of K.Client.rules K.Server.rules K.InProxy.rules K.OutProxy.rules)
            (makers_of K.in_proxy K.out_proxy) self.old leg cookie) }
    {
        if self.cookies.was_had(cookie) || !self.company.may_up(Who::Client, leg) {
            return Ok(false);
        }
        self.cookies.add(cookie)?;
        self.make_proxy(alloc, leg)?;
        self.company.up(Who::Client, leg, cookie);
        self.legs.raise(leg, Side::Client)?;
        Ok(true)
    }

    /// A node alone that isn't the client is told that a leg is up.
    fn up_other(&mut self, who: Who, leg: Leg, cookie: Cookie) -> Result<bool, AllocError>
        ensures { IfOk result (λ ok. (self.new, ok) ≡ seen.up_other
            (rules_of K.Client.rules K.Server.rules K.InProxy.rules K.OutProxy.rules)
            self.old who leg cookie) }
    {
        let Some(side) = self.end_of(who, leg) else {
            return Ok(false);
        };
        if !self.company.may_up(who, leg) {
            return Ok(false);
        }
        self.company.up(who, leg, cookie);
        self.legs.raise(leg, side)?;
        Ok(true)
    }

    /// A node alone is told that a leg is up.
    fn up_half(
        &mut self,
        alloc: Global,
        who: Who,
        leg: Leg,
        cookie: Cookie,
    ) -> Result<bool, AllocError>
        ensures { IfOk result (λ ok. (self.new, ok) ≡ seen.up_half
            (rules_of K.Client.rules K.Server.rules K.InProxy.rules K.OutProxy.rules)
            (makers_of K.in_proxy K.out_proxy) self.old who leg cookie) }
    {
        match who {
            Who::Client => self.up_client(alloc, leg, cookie),
            Who::Server | Who::In(_) | Who::Out(_) => self.up_other(who, leg, cookie),
        }
    }

    /// A node alone is told that a leg failed, which is up for it or which it wants.
    fn broken_half(&mut self, who: Who, leg: Leg) -> Result<bool, AllocError>
        ensures { IfOk result (λ ok. (self.new, ok) ≡ seen.broken_half
            (rules_of K.Client.rules K.Server.rules K.InProxy.rules K.OutProxy.rules)
            self.old who leg) }
    {
        if let Some(side) = self.end_of(who, leg) {
            if self.legs.is_up(leg, side) {
                self.lose(leg, side, &Event::Breaks(leg))?;
                return Ok(true);
            }
        }
        if self.company.wants(who, leg) {
            self.tell(who, &Event::Breaks(leg))?;
            return Ok(true);
        }
        Ok(false)
    }

    /// A node alone is told that a leg ended, which is up for it.
    fn ended_half(&mut self, who: Who, leg: Leg) -> Result<bool, AllocError>
        ensures { IfOk result (λ ok. (self.new, ok) ≡ seen.ended_half
            (rules_of K.Client.rules K.Server.rules K.InProxy.rules K.OutProxy.rules)
            self.old who leg) }
    {
        if let Some(side) = self.end_of(who, leg) {
            if self.legs.is_up(leg, side) {
                self.lose(leg, side, &Event::Ends(leg))?;
                return Ok(true);
            }
        }
        Ok(false)
    }

    /// A node alone is told the moment, which isn't below its last one.
    fn tick_half(&mut self, who: Who, now: u64) -> Result<bool, AllocError>
        ensures { IfOk result (λ ok. (self.new, ok) ≡ seen.tick_half
            (rules_of K.Client.rules K.Server.rules K.InProxy.rules K.OutProxy.rules)
            self.old who now) }
    {
        let Some(last) = self.company.now(who) else {
            return Ok(false);
        };
        if now < last {
            return Ok(false);
        }
        self.tell(who, &Event::Passes(now))?;
        Ok(true)
    }

    /// Does what a half step says; no node that it closes is told of.
    fn half_by(&mut self, alloc: Global, half: &Half) -> Result<bool, AllocError>
        ensures { IfOk result (λ ok. (self.new, ok) ≡ seen.half_by
            (rules_of K.Client.rules K.Server.rules K.InProxy.rules K.OutProxy.rules)
            (makers_of K.in_proxy K.out_proxy) self.old half.now) }
    {
        match *half {
            Half::Up { who, leg, cookie } => self.up_half(alloc, who, leg, cookie),
            Half::Broken { who, leg } => self.broken_half(who, leg),
            Half::Ended { who, leg } => self.ended_half(who, leg),
            Half::Tick { who, now } => self.tick_half(who, now),
        }
    }

    /// Tells one node alone something, and answers true; answers false, and changes nothing, where
    /// that node may not be told it. A node is told `Up` of a leg that it may have up, the client
    /// with a cookie that no leg has had, which makes the leg's proxy; `Broken` of a leg that is up
    /// for it or that it wants; `Ended` of a leg that is up for it; and a moment that isn't below
    /// its last one. A node that closes by this is told of by no line of a report.
    ///
    /// Fails where there is no memory.
    pub fn half(&mut self, alloc: Global, half: &Half) -> Result<bool, AllocError>
        ensures { IfOk result (λ ok. (self.new, ok) ≡ seen.half
            (rules_of K.Client.rules K.Server.rules K.InProxy.rules K.OutProxy.rules)
            (makers_of K.in_proxy K.out_proxy) self.old half.now) }
    {
        let ok = self.half_by(alloc, half)?;
        self.closed.clear();
        Ok(ok)
    }
}
