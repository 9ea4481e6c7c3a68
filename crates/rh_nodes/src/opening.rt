//! The lines that connect a leg.

ghost use Rattle.std.specs.Prelude.{◌≡◌, ◌<◌, IfOk, OnOk};
ghost use Rattle.rh_company.specs.Company.{rules_of};
ghost use Rattle.rh_nodes.specs.Opening as seen;
ghost use Rattle.rh_nodes.specs.Opening.{makers_of};

use crate::nodes::Nodes;
use rh_company::Cast;
use rh_line::{Leg, LegKind};
use rh_record::{Side, Who};
use rh_rts::{Cookie, NO_COOKIE};
use rh_shell::{Role, Shell};
use std::alloc::{AllocError, Global};

/// The node at this moment.
fn at_moment<R: Role>(node: Shell<R>, now: u64) -> Shell<R>
    ensures { result ≡ seen.at_moment R.rules node now }
{
    let mut node = node;
    node.tick(now);
    node
}

/// Whether legs of a kind are IN legs of the client.
fn is_client_in(kind: LegKind) -> bool
    ensures { result ≡ seen.is_client_in kind }
{
    matches!(kind, LegKind::ClientIn)
}

impl<K: Cast> Nodes<K> {
    /// The leg is up for both of its ends, whose nodes are told this cookie.
    pub(crate) fn connect(&mut self, leg: Leg, cookie: Cookie) -> Result<(), AllocError>
        ensures { OnOk result (self.new ≡ seen.connect
            (rules_of K.Client.rules K.Server.rules K.InProxy.rules K.OutProxy.rules)
            self.old leg cookie) }
    {
        let (client, server) = (self.at(leg, Side::Client), self.at(leg, Side::Server));
        self.company.up(client, leg, cookie);
        self.company.up(server, leg, cookie);
        self.legs.raise(leg, Side::Client)?;
        self.legs.raise(leg, Side::Server)
    }

    /// A leg of the client is up, with the next cookie.
    fn connect_client(&mut self, leg: Leg) -> Result<(), AllocError>
        ensures { OnOk result (self.new ≡ seen.connect_client
            (rules_of K.Client.rules K.Server.rules K.InProxy.rules K.OutProxy.rules)
            self.old leg) }
    {
        let cookie = self.cookies.draw();
        self.connect(leg, cookie)
    }

    /// The out proxy that is made for a channel, at this moment.
    pub(crate) fn new_out(
        &self,
        alloc: Global,
        number: u32,
    ) -> Result<Shell<K::OutProxy>, AllocError>
        requires { 0 < number }
        ensures { IfOk result (λ node. node ≡ seen.at_moment K.OutProxy.rules
            (K.out_proxy self.entry.now.cast number) self.entry.now.now) }
    {
        Ok(at_moment(self.cast.out_proxy(alloc, number)?, self.now))
    }

    /// The in proxy that is made for a channel, at this moment.
    pub(crate) fn new_in(&self, alloc: Global, number: u32) -> Result<Shell<K::InProxy>, AllocError>
        requires { 0 < number }
        ensures { IfOk result (λ node. node ≡ seen.at_moment K.InProxy.rules
            (K.in_proxy self.entry.now.cast number) self.entry.now.now) }
    {
        Ok(at_moment(self.cast.in_proxy(alloc, number)?, self.now))
    }

    /// An out proxy is made.
    pub(crate) fn make_out(
        &mut self,
        number: u32,
        node: Shell<K::OutProxy>,
    ) -> Result<(), AllocError>
        ensures { OnOk result (self.new ≡ seen.with_out self.old number node) }
    {
        self.company.outs.make(number, node)
    }

    /// An in proxy is made, which reads the leg of its channel.
    pub(crate) fn make_in(&mut self, number: u32, node: Shell<K::InProxy>) -> Result<(), AllocError>
        ensures { OnOk result (self.new ≡ seen.with_in self.old number node) }
    {
        self.company.ins.make(number, node)?;
        self.readers.set(number, number)
    }

    /// Connects an OUT leg of the client to a proxy that is made for it, where that may have it up.
    /// Answers whether it is up.
    // Out of line, so that a round that makes no proxy has no room for one to clear.
    #[inline(never)]
    fn open_out_to_new(&mut self, alloc: Global, leg: Leg) -> Result<bool, AllocError>
        requires { 0 < leg.number }
        ensures { IfOk result (λ ok. (self.new, ok) ≡ seen.open_out_to
            (rules_of K.Client.rules K.Server.rules K.InProxy.rules K.OutProxy.rules)
            self.old leg
            (seen.at_moment K.OutProxy.rules (K.out_proxy self.old.cast leg.number) self.old.now)) }
    {
        let node = self.new_out(alloc, leg.number)?;
        if !node.may_up(leg) {
            return Ok(false);
        }
        self.make_out(leg.number, node)?;
        self.connect_client(leg)?;
        Ok(true)
    }

    /// Connects an OUT leg of the client to a proxy of its own, where the client wants it and the
    /// proxy may have it up. Answers whether it is up.
    fn open_client_out(&mut self, alloc: Global, leg: Leg) -> Result<bool, AllocError>
        ensures { IfOk result (λ ok. (self.new, ok) ≡ seen.open_client_out
            (rules_of K.Client.rules K.Server.rules K.InProxy.rules K.OutProxy.rules)
            K.out_proxy self.old leg) }
    {
        if leg.number == 0 || !self.company.wants(Who::Client, leg) {
            return Ok(false);
        }
        if !self.company.outs.is_absent(leg.number) {
            return Ok(false);
        }
        self.open_out_to_new(alloc, leg)
    }

    /// Connects an IN leg of the client to a proxy that is made for it, where that may have it up.
    /// Answers whether it is up.
    // Out of line, so that a round that makes no proxy has no room for one to clear.
    #[inline(never)]
    fn open_in_to_new(&mut self, alloc: Global, leg: Leg) -> Result<bool, AllocError>
        requires { 0 < leg.number }
        ensures { IfOk result (λ ok. (self.new, ok) ≡ seen.open_in_to
            (rules_of K.Client.rules K.Server.rules K.InProxy.rules K.OutProxy.rules)
            self.old leg
            (seen.at_moment K.InProxy.rules (K.in_proxy self.old.cast leg.number) self.old.now)) }
    {
        let node = self.new_in(alloc, leg.number)?;
        if !node.may_up(leg) {
            return Ok(false);
        }
        self.make_in(leg.number, node)?;
        self.connect_client(leg)?;
        Ok(true)
    }

    /// Connects an IN leg of the client to a proxy of its own, where the client wants it and the
    /// proxy may have it up. Answers whether it is up.
    fn open_client_in(&mut self, alloc: Global, leg: Leg) -> Result<bool, AllocError>
        ensures { IfOk result (λ ok. (self.new, ok) ≡ seen.open_client_in
            (rules_of K.Client.rules K.Server.rules K.InProxy.rules K.OutProxy.rules)
            K.in_proxy self.old leg) }
    {
        if leg.number == 0 || !self.company.wants(Who::Client, leg) {
            return Ok(false);
        }
        if !self.company.ins.is_absent(leg.number) {
            return Ok(false);
        }
        self.open_in_to_new(alloc, leg)
    }

    /// Whether the node at one end of the leg wants it, and the node at the other may have it up.
    fn is_wanted(&self, leg: Leg) -> bool
        ensures { result ≡ seen.is_wanted
            (rules_of K.Client.rules K.Server.rules K.InProxy.rules K.OutProxy.rules)
            self.entry.now leg }
    {
        let (client, server) = (self.at(leg, Side::Client), self.at(leg, Side::Server));
        (self.company.wants(client, leg) && self.company.may_up(server, leg))
            || (self.company.wants(server, leg) && self.company.may_up(client, leg))
    }

    /// Connects a leg of the server, where one end wants it and the other may have it up. Answers
    /// whether it is up. The cookie that its ends are told is passed over.
    fn open_server(&mut self, leg: Leg) -> Result<bool, AllocError>
        ensures { IfOk result (λ ok. (self.new, ok) ≡ seen.open_server
            (rules_of K.Client.rules K.Server.rules K.InProxy.rules K.OutProxy.rules)
            self.old leg) }
    {
        if leg.number == 0 || !self.is_wanted(leg) {
            return Ok(false);
        }
        self.connect(leg, NO_COOKIE)?;
        Ok(true)
    }

    /// Connects a leg, where one end wants it and the other may have it up; a client's leg gets a
    /// proxy of its own. Answers whether it is up.
    pub(crate) fn open(&mut self, alloc: Global, leg: Leg) -> Result<bool, AllocError>
        ensures { IfOk result (λ ok. (self.new, ok) ≡ seen.open_leg
            (rules_of K.Client.rules K.Server.rules K.InProxy.rules K.OutProxy.rules)
            (makers_of K.in_proxy K.out_proxy) self.old leg) }
    {
        match leg.kind {
            LegKind::ClientOut => self.open_client_out(alloc, leg),
            LegKind::ClientIn => self.open_client_in(alloc, leg),
            LegKind::OutServer | LegKind::InServer => self.open_server(leg),
        }
    }

    /// The number of the in proxy that reads the channel before this one; 0 where none does.
    fn reader_before(&self, number: u32) -> u32
        ensures { result ≡ seen.reader_before self.entry.now number }
    {
        if number == 0 {
            0
        } else {
            self.readers.of(number - 1)
        }
    }

    /// Whether the in proxy that reads the channel before it may have an IN leg of the client up.
    pub(crate) fn may_open_same(&self, leg: Leg) -> bool
        ensures { result ≡ seen.may_open_same
            (rules_of K.Client.rules K.Server.rules K.InProxy.rules K.OutProxy.rules)
            self.entry.now leg }
    {
        let reader = self.reader_before(leg.number);
        self.company.may_up(Who::In(reader), leg)
    }

    /// An IN leg of the client is read by the proxy that reads the channel before it.
    fn read_on(&mut self, number: u32) -> Result<(), AllocError>
        ensures { OnOk result (self.new ≡ seen.read_on self.old number) }
    {
        let reader = self.reader_before(number);
        self.readers.set(number, reader)
    }

    /// Connects an IN leg of the client to the proxy that reads the channel before it, where the
    /// client wants it and that proxy may have it up. Answers whether it is up.
    pub(crate) fn open_same(&mut self, leg: Leg) -> Result<bool, AllocError>
        ensures { IfOk result (λ ok. (self.new, ok) ≡ seen.open_same
            (rules_of K.Client.rules K.Server.rules K.InProxy.rules K.OutProxy.rules)
            self.old leg) }
    {
        if !is_client_in(leg.kind) || !self.company.wants(Who::Client, leg) {
            return Ok(false);
        }
        if !self.may_open_same(leg) {
            return Ok(false);
        }
        self.read_on(leg.number)?;
        self.connect_client(leg)?;
        Ok(true)
    }
}
