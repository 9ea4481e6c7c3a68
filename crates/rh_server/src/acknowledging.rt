//! RPC PDUs and acknowledgements (MS-RPCH 3.2.1, 3.2.5).

ghost use Rattle.std.specs.Prelude.{◌≡◌};
ghost use Rattle.rh_server.specs.Acknowledging.{is_of_channel, channel_place, out_server};

use crate::opening::{Row, is_first};
use crate::out_line::Taking;
use crate::state::{OutLeg, ServerRole, same_cookie};
use rh_line::{Leg, LegKind, LineFault, Which};
use rh_rts::{Cookie, TO_CLIENT, TO_OUT_PROXY};
use rh_shell::{Count, FORWARDED_ROOM, Refused};
use rh_sig::Named;

/// Whether an os leg has this channel.
fn is_of_channel(cookie: Cookie, channel: Option<Cookie>) -> bool
    ensures { result ≡ is_of_channel cookie channel }
{
    match channel {
        None => false,
        Some(channel) => same_cookie(channel, cookie),
    }
}

/// The place of the os leg of this channel among legs.
fn channel_place(cookie: Cookie, legs: &[OutLeg]) -> Option<usize>
    ensures { result ≡ channel_place cookie legs.now }
{
    legs.iter()
        .position(|leg| is_of_channel(cookie, leg.cookie))
}

pub(crate) fn out_server(number: u32) -> Leg
    ensures { result ≡ out_server number }
{
    Leg {
        kind: LegKind::OutServer,
        number,
    }
}

impl OutLeg {
    ghost use Rattle.std.specs.Prelude.{◌≡◌};
    ghost use Rattle.rh_server.specs.OutLegs as seen;

    /// The window of its channel takes an acknowledgement.
    fn acked(&mut self, received: u32, window: u32) -> Row
        ensures { (self.new, result) ≡ seen.acked self.old received window }
    {
        match self.window.acked(received, window) {
            Ok(()) => Ok(()),
            Err(bad) => Err(Refused::OutOfRange {
                command: bad.command,
                value: bad.value,
            }),
        }
    }
}

impl ServerRole {
    ghost use Rattle.std.specs.Prelude.{◌<◌, true, length, slice_get, Some};
    ghost use Rattle.rh_pdu.specs.Frames.{IsPdu};
    ghost use Rattle.rh_line.specs.Lines.{IsThere};
    ghost use Rattle.rh_sig.specs.Values.{MayBeWritten};
    ghost use Rattle.rh_shell.specs.Waiting.{takes};
    ghost use Rattle.rh_server.specs.OutLines.{has, is_ack};
    ghost use Rattle.rh_server.specs.Acknowledging as seen;

    /// The channel of the line on which a leg's PDUs come; `None` once IN_R1/A6 came there.
    pub(crate) fn channel_at(&self, number: u32) -> Option<Which>
        ensures { result ≡ seen.channel_at self.now number }
    {
        if number == self.current.leg && !self.is_left {
            return Some(Which::Current);
        }
        if self.line.has_next() && number == self.next.leg {
            return Some(Which::Next);
        }
        None
    }

    pub(crate) fn on_pdu(&mut self, number: u32, pdu: &[u8]) -> Row
        requires { IsPdu pdu.now }
        ensures { (self.new, result) ≡ seen.on_pdu self.old number pdu.now }
    {
        if !self.is_open() {
            return Err(Refused::Unexpected);
        }
        let Some(which) = self.channel_at(number) else {
            return Err(Refused::Unexpected);
        };
        self.admits(which, pdu)
    }

    /// The channel takes a PDU.
    fn admits(&mut self, which: Which, pdu: &[u8]) -> Row
        requires there { IsThere self.old.line which }
        requires pdu { IsPdu pdu.now }
        ensures { (self.new, result) ≡ seen.admitted_on self.old pdu.now (Some which) }
    {
        match self.line.admit(which, pdu) {
            Ok(()) => Ok(()),
            Err(LineFault::Window(exceeded)) => Err(Refused::Window(exceeded)),
            Err(LineFault::Over) => Err(Refused::Unexpected),
        }
    }

    /// Whether an AckTo 3 waits for this channel.
    fn has_ack(&self, cookie: Option<Cookie>) -> bool
        ensures { result ≡ seen.has_ack_by self.now.waiting cookie }
    {
        match cookie {
            None => false,
            Some(cookie) => self.out_line.has_ack_of(cookie),
        }
    }

    /// Whether an AckTo 3 waits for another leg than the writing one.
    fn has_ack_elsewhere(&self, leg: &OutLeg) -> bool
        ensures { result ≡ seen.has_ack_elsewhere self.now leg.now }
    {
        leg.number != self.writing && self.has_ack(leg.cookie)
    }

    /// Whether sixteen packets wait for the writing leg that are to be forwarded.
    fn is_full(&self) -> bool
        ensures { result ≡ seen.is_full self.now }
    {
        let elsewhere = self
            .outs
            .iter()
            .filter(|leg| self.has_ack_elsewhere(leg))
            .count();
        self.out_line.to_forward() >= usize::from(FORWARDED_ROOM) + elsewhere
    }

    fn forwards(&mut self, number: u32, packet: Named) -> Row
        requires writable { MayBeWritten packet }
        requires ack { is_ack packet ≡ true }
        ensures { (self.new, result) ≡ seen.forwards self.old number packet }
    {
        if self.out_line.forward(packet) {
            Ok(())
        } else {
            Err(Refused::Full {
                leg: out_server(number),
            })
        }
    }

    /// Whether an acknowledgement waits with which this packet is merged.
    fn merges(&self, packet: Named) -> bool
        ensures { result ≡ has (takes packet) self.now.waiting }
    {
        self.out_line.has(&Taking(packet))
    }

    /// On the writing leg, where there is room or the packet is merged.
    fn forwards_writing(&mut self, packet: Named) -> Row
        requires writable { MayBeWritten packet }
        requires ack { is_ack packet ≡ true }
        ensures { (self.new, result) ≡ seen.forwards_writing self.old packet }
    {
        let writing = self.writing_now();
        if self.is_full() && !self.merges(packet) {
            return Err(Refused::Full {
                leg: out_server(writing),
            });
        }
        self.forwards(writing, packet)
    }

    /// The place of the os leg of this channel.
    fn channel_place(&self, cookie: Cookie) -> Option<usize>
        ensures { result ≡ seen.channel_place cookie self.now.outs }
    {
        channel_place(cookie, &self.outs)
    }

    /// The number of the os leg of this channel.
    fn channel_leg(&self, cookie: Cookie) -> Option<u32>
        ensures { result ≡ seen.channel_leg cookie self.now.outs }
    {
        let place = self.channel_place(cookie)?;
        Some(self.outs[place].number)
    }

    pub(crate) fn on_ack_to(
        &mut self,
        count: Count,
        destination: u32,
        received: u32,
        window: u32,
        cookie: Cookie,
    ) -> Row
        ensures { (self.new, result)
            ≡ seen.on_ack_to self.old count destination received window cookie }
    {
        if is_first(count) {
            return Err(Refused::Unexpected);
        }
        match destination {
            0 => self.forwards_writing(Named::AckTo(TO_CLIENT, received, window, cookie)),
            3 => self.forwards_to(Named::AckTo(TO_OUT_PROXY, received, window, cookie), cookie),
            _ => Err(Refused::Unexpected),
        }
    }

    /// On the leg of its channel; where that is finished it is passed over.
    fn forwards_to(&mut self, packet: Named, cookie: Cookie) -> Row
        requires writable { MayBeWritten packet }
        requires ack { is_ack packet ≡ true }
        ensures { (self.new, result)
            ≡ seen.forwards_to self.old packet (seen.channel_leg cookie self.old.outs) }
    {
        let Some(number) = self.channel_leg(cookie) else {
            return Ok(());
        };
        if number == self.writing_now() {
            return self.forwards_writing(packet);
        }
        self.forwards(number, packet)
    }

    pub(crate) fn on_ack(
        &mut self,
        number: u32,
        count: Count,
        received: u32,
        window: u32,
        cookie: Cookie,
    ) -> Row
        ensures { (self.new, result) ≡ seen.on_ack self.old number count received window cookie }
    {
        if is_first(count) {
            return Err(Refused::Unexpected);
        }
        let Some(channel) = self.out_cookie(number) else {
            return Err(Refused::Unexpected);
        };
        if !same_cookie(channel, cookie) {
            return Err(Refused::Cookie {
                expected: channel,
                got: cookie,
            });
        }
        let Some(place) = self.out_place(number) else {
            return Err(Refused::Unexpected);
        };
        self.acked_at(place, received, window)
    }

    /// The window of the leg's channel takes an acknowledgement.
    fn acked_at(&mut self, place: usize, received: u32, window: u32) -> Row
        requires { place < length self.old.outs }
        ensures { (self.new, result)
            ≡ seen.acked_at self.old place received window (slice_get self.old.outs place) }
    {
        self.outs[place].acked(received, window)
    }

    pub(crate) fn on_ping_traffic(&mut self, count: Count) -> Row
        ensures { (self.new, result) ≡ seen.on_ping_traffic self.old count }
    {
        if is_first(count) {
            return Err(Refused::Unexpected);
        }
        Ok(())
    }
}
