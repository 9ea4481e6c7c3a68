//! Acknowledgements: those that an in proxy forwards, takes and makes.

use crate::row::Row;
use crate::state::{InProxyRole, Successor, same_cookie};
use rh_line::{Leg, LegKind, Which};
use rh_rts::{Cookie, TO_CLIENT, TO_OUT_PROXY};
use rh_shell::{Begun, Refused};
use rh_sig::Named;
use rh_window::Ack;

impl InProxyRole {
    ghost use Rattle.std.specs.Prelude.{◌≡◌, []};
    ghost use Rattle.rh_sig.specs.Values.{MayBeWritten};
    ghost use Rattle.rh_line.specs.Lines.{IsThere};
    ghost use Rattle.rh_shell.specs.Rules.{put_into};
    ghost use Rattle.rh_inproxy.specs.Answers.{is_some};
    ghost use Rattle.rh_inproxy.specs.Acknowledging as seen;

    /// The leg to the server.
    fn server_leg(&self) -> Leg
        ensures { result ≡ seen.server_leg self.now }
    {
        Leg {
            kind: LegKind::InServer,
            number: self.config.number,
        }
    }

    /// The packet is to be forwarded on is.
    pub(crate) fn forward(&mut self, packet: Named) -> Row
        requires { MayBeWritten packet }
        ensures { (self.new, result) ≡ seen.forwarded self.old packet }
    {
        if self.waiting.forward(packet) {
            Ok(())
        } else {
            Err(Refused::Full {
                leg: self.server_leg(),
            })
        }
    }

    pub(crate) fn on_ack_to(
        &mut self,
        which: Which,
        to: u32,
        received: u32,
        available: u32,
        channel: Cookie,
    ) -> Row
        ensures { (self.new, result)
            ≡ seen.on_ack_to self.old which to received available channel }
    {
        if self.has_a5(which) || to != TO_OUT_PROXY {
            return Err(Refused::Unexpected);
        }
        self.forward(Named::AckTo(TO_OUT_PROXY, received, available, channel))
    }

    /// Takes an acknowledgement of the channel with which the is leg was opened.
    fn take_ack(&mut self, received: u32, available: u32) -> Row
        ensures { (self.new, result) ≡ seen.acked self.old received available }
    {
        match self.window.acked(received, available) {
            Ok(()) => Ok(()),
            Err(bad) => Err(Refused::OutOfRange {
                command: bad.command,
                value: bad.value,
            }),
        }
    }

    pub(crate) fn on_ack(&mut self, received: u32, available: u32, channel: Cookie) -> Row
        ensures { (self.new, result) ≡ seen.on_ack self.old received available channel }
    {
        if self.awaits_edge() {
            return Err(Refused::Unexpected);
        }
        let Some(opener) = self.opener_of() else {
            return Err(Refused::Unexpected);
        };
        if !same_cookie(&opener.channel, &channel) {
            return Err(Refused::Cookie {
                expected: opener.channel,
                got: channel,
            });
        }
        self.take_ack(received, available)
    }

    /// The acknowledgement that is due on a channel.
    fn ack_due(&self, which: Which) -> Option<Ack>
        requires { IsThere self.now.line which }
        ensures { result ≡ seen.ack_due self.now which }
    {
        if self.line.is_over(which) || self.has_a5(which) {
            return None;
        }
        self.line.due(which)
    }

    /// Puts the acknowledgement that is due on a channel.
    fn put_ack(&mut self, which: Which, cookie: Cookie, begun: &mut Begun) -> bool
        requires there { IsThere self.old.line which }
        requires empty { begun.old ≡ [] }
        ensures put { (self.new, begun.new)
            ≡ put_into self.old (seen.put_ack self.old which cookie) }
        ensures told { result ≡ is_some (seen.put_ack self.old which cookie) }
    {
        let Some(ack) = self.ack_due(which) else {
            return false;
        };
        self.line.told(which, &ack);
        begun.begin_packet(&Named::AckTo(TO_CLIENT, ack.received, ack.available, cookie));
        true
    }

    /// Puts an acknowledgement of the current channel.
    fn put_current_ack(&mut self, begun: &mut Begun) -> bool
        requires { begun.old ≡ [] }
        ensures put { (self.new, begun.new) ≡ put_into self.old (seen.current_ack self.old) }
        ensures told { result ≡ is_some (seen.current_ack self.old) }
    {
        self.put_ack(Which::Current, self.current.cookie, begun)
    }

    /// Puts an acknowledgement of the next channel.
    fn put_next_ack(&mut self, begun: &mut Begun) -> bool
        requires { begun.old ≡ [] }
        ensures put { (self.new, begun.new)
            ≡ put_into self.old (seen.next_ack self.old self.old.successor) }
        ensures told { result ≡ is_some (seen.next_ack self.old self.old.successor) }
    {
        match self.successor {
            Successor::Joined(leg, _) => self.put_ack(Which::Next, leg.cookie, begun),
            _ => false,
        }
    }

    /// Puts an acknowledgement, of the lower channel first.
    pub(crate) fn put_acks(&mut self, begun: &mut Begun) -> bool
        requires { begun.old ≡ [] }
        ensures put { (self.new, begun.new) ≡ put_into self.old (seen.put_acks self.old) }
        ensures told { result ≡ is_some (seen.put_acks self.old) }
    {
        self.put_current_ack(begun) || self.put_next_ack(begun)
    }
}
