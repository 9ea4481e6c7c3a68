//! The nodes of a virtual connection.

ghost use Rattle.std.specs.Prelude.{◌≡◌, ◌≤◌, length, take, drop, IfOk, OnOk};
ghost use Rattle.rh_company.specs.Company as seen;
ghost use Rattle.rh_company.specs.Company.{rules_of};

use crate::cast::Cast;
use crate::event::Event;
use crate::places::Places;
use crate::telling::tell;
use rh_line::{Cause, Leg};
use rh_record::Who;
use rh_rts::Cookie;
use rh_shell::Shell;
use std::marker::Model;

/// The two ends, and the proxies by their numbers.
#[derive(Drop)]
pub struct Company<K: Cast> {
    pub client: Shell<K::Client>,
    pub server: Shell<K::Server>,
    pub ins: Places<K::InProxy>,
    pub outs: Places<K::OutProxy>,
}

impl<K: Cast> Model for Company<K> {
    ghost use Rattle.rh_company.specs.Company as seen;

    ghost Value = { seen.Company K.Client K.Server K.InProxy K.OutProxy };

    ghost view = { λ a. record {
      client = a.client;
      server = a.server;
      ins = a.ins;
      outs = a.outs;
    } };
}

impl<K: Cast> Company<K> {
    /// Whether a node asks for the leg to be connected.
    pub fn wants(&self, who: Who, leg: Leg) -> bool
        ensures { result ≡ seen.wants
            (rules_of K.Client.rules K.Server.rules K.InProxy.rules K.OutProxy.rules)
            self.entry.now who leg }
    {
        match who {
            Who::Client => self.client.wants(leg),
            Who::Server => self.server.wants(leg),
            Who::In(number) => self.ins.wants(number, leg),
            Who::Out(number) => self.outs.wants(number, leg),
        }
    }

    /// Whether a node may have the leg up.
    pub fn may_up(&self, who: Who, leg: Leg) -> bool
        ensures { result ≡ seen.may_up
            (rules_of K.Client.rules K.Server.rules K.InProxy.rules K.OutProxy.rules)
            self.entry.now who leg }
    {
        match who {
            Who::Client => self.client.may_up(leg),
            Who::Server => self.server.may_up(leg),
            Who::In(number) => self.ins.may_up(number, leg),
            Who::Out(number) => self.outs.may_up(number, leg),
        }
    }

    /// Whether a node has no use for the leg any more, and nothing left to draw.
    pub fn finished(&self, who: Who, leg: Leg) -> bool
        ensures { result ≡ seen.finished
            (rules_of K.Client.rules K.Server.rules K.InProxy.rules K.OutProxy.rules)
            self.entry.now who leg }
    {
        match who {
            Who::Client => self.client.finished(leg),
            Who::Server => self.server.finished(leg),
            Who::In(number) => self.ins.finished(number, leg),
            Who::Out(number) => self.outs.finished(number, leg),
        }
    }

    /// The last moment of a node, in milliseconds; `None` of a proxy that was not made.
    pub fn now(&self, who: Who) -> Option<u64>
        ensures { result ≡ seen.last_moment self.entry.now who }
    {
        match who {
            Who::Client => Some(self.client.now()),
            Who::Server => Some(self.server.now()),
            Who::In(number) => self.ins.now(number),
            Who::Out(number) => self.outs.now(number),
        }
    }

    /// The leg is up for a node.
    pub fn up(&mut self, who: Who, leg: Leg, cookie: Cookie)
        ensures { self.new ≡ seen.up
            (rules_of K.Client.rules K.Server.rules K.InProxy.rules K.OutProxy.rules)
            self.old who leg cookie }
    {
        match who {
            Who::Client => self.client.up(leg, cookie),
            Who::Server => self.server.up(leg, cookie),
            Who::In(number) => self.ins.up(number, leg, cookie),
            Who::Out(number) => self.outs.up(number, leg, cookie),
        }
    }

    /// Tells a node something, and answers the cause with which that closed it.
    #[inline(always)]
    pub fn tell(&mut self, who: Who, event: &Event) -> Option<Cause>
        ensures { (self.new, result) ≡ seen.tell
            (rules_of K.Client.rules K.Server.rules K.InProxy.rules K.OutProxy.rules)
            self.old who event.now }
    {
        match who {
            Who::Client => tell(&mut self.client, event),
            Who::Server => tell(&mut self.server, event),
            Who::In(number) => self.ins.tell(number, event),
            Who::Out(number) => self.outs.tell(number, event),
        }
    }

    /// A leg is not up for a node any more.
    pub fn leave(&mut self, who: Who)
        ensures { self.new ≡ seen.leave
            (rules_of K.Client.rules K.Server.rules K.InProxy.rules K.OutProxy.rules)
            self.old who }
    {
        match who {
            Who::Client | Who::Server => {}
            Who::In(number) => self.ins.leave(number),
            Who::Out(number) => self.outs.leave(number),
        }
    }

    /// Draws the next bytes that a node puts on the leg into the front of the room, and answers how
    /// many.
    pub fn draw(&mut self, who: Who, leg: Leg, room: &mut [u8]) -> usize
        ensures drawn { (self.new, take result room.new) ≡ seen.draw
            (rules_of K.Client.rules K.Server.rules K.InProxy.rules K.OutProxy.rules)
            self.old who leg (length room.old) }
        ensures fits { result ≤ length room.old }
    {
        match who {
            Who::Client => self.client.draw(leg, room),
            Who::Server => self.server.draw(leg, room),
            Who::In(number) => self.ins.draw(number, leg, room),
            Who::Out(number) => self.outs.draw(number, leg, room),
        }
    }
}
