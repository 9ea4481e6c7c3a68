//! What a frame of a captured stream is.

ghost use Rattle.std.specs.Prelude.{◌≡◌};
ghost use Rattle.rh_pdu.specs.Frames.{IsFrame};
ghost use Rattle.rh_audit.specs.Packets as seen;
ghost use Rattle.rh_audit.specs.Packets.{latest, no_cookies, packet_on};

use rh_pdu::header::{PTYPE_AT, RTS};
use rh_rts::{CommandRef, Commands, Cookie, NO_COOKIE, view};
use rh_sig::{Name, Pipe, name_of};

/// The last cookie that a packet has, and the one before it.
#[derive(Clone, Copy)]
pub struct LastCookies {
    pub last: Cookie,
    pub before: Cookie,
}

/// A packet that has a name on its pipe.
#[derive(Clone, Copy)]
pub struct Packet {
    pub name: Name,
    pub cookies: LastCookies,
}

/// The first packet of a leg: the cookie of its channel, and in a replacement that of the
/// predecessor.
#[derive(Clone, Copy)]
pub struct First {
    pub own: Cookie,
    pub predecessor: Option<Cookie>,
}

/// What a frame is on a pipe.
#[derive(Clone, Copy)]
pub enum Met {
    /// An RPC PDU.
    Pdu,
    /// An RTS PDU that has no name there.
    Nameless,
    /// An RTS PDU that has one.
    Packet(Packet),
}

/// The last two cookies of the commands.
fn last_cookies(commands: Commands<'_>) -> LastCookies
    ensures { result ≡ latest no_cookies commands.entry }
{
    let mut found = LastCookies {
        last: NO_COOKIE,
        before: NO_COOKIE,
    };
    let mut left = commands;
    while let Some(command) = left.next() {
        if let CommandRef::Cookie(cookie) = command {
            found = LastCookies {
                last: cookie,
                before: found.last,
            };
        }
    }
    found
}

/// The packet that the frame is on this pipe; `None` where it is none, or has no name there.
#[tactic(auto, unfolding(crate::specs::Packets::packet_on))]
fn packet_on(frame: &[u8], pipe: Pipe) -> Option<Packet>
    ensures { result ≡ packet_on pipe frame.now }
{
    let Ok(packet) = view(frame) else {
        return None;
    };
    let name = name_of(&packet, pipe)?;
    let cookies = last_cookies(packet.commands());
    Some(Packet { name, cookies })
}

/// What the frame is on this pipe.
pub(crate) fn meet(frame: &[u8], pipe: Pipe) -> Met
    requires { IsFrame frame.now }
    ensures { result ≡ seen.met pipe frame.now }
{
    if frame[PTYPE_AT] != RTS {
        return Met::Pdu;
    }
    match packet_on(frame, pipe) {
        Some(packet) => Met::Packet(packet),
        None => Met::Nameless,
    }
}

impl Packet {
    ghost use Rattle.std.specs.Prelude.{◌≡◌};
    ghost use Rattle.rh_audit.specs.Packets as seen;

    /// What a first packet says; `None` where the packet is not one with which a leg begins.
    pub(crate) fn first(&self) -> Option<First>
        ensures { result ≡ seen.first_of self.now }
    {
        match self.name {
            Name::ConnA1 | Name::ConnA2 | Name::ConnB1 | Name::ConnB2 => Some(First {
                own: self.cookies.last,
                predecessor: None,
            }),
            Name::InR1A1 | Name::InR1A2 | Name::OutR1A3 | Name::OutR1A4 => Some(First {
                own: self.cookies.last,
                predecessor: Some(self.cookies.before),
            }),
            _ => None,
        }
    }
}

impl Met {
    ghost use Rattle.std.specs.Prelude.{◌≡◌};
    ghost use Rattle.rh_audit.specs.Packets as seen;

    /// Whether the frame may stand at the beginning of a stream towards the server.
    pub(crate) fn first(&self) -> Option<First>
        ensures { result ≡ seen.first_met self.now }
    {
        match self {
            Met::Packet(packet) => packet.first(),
            Met::Pdu | Met::Nameless => None,
        }
    }

    /// Whether it is the last that belongs to its channel: a handover mark.
    pub(crate) fn is_mark(&self) -> bool
        ensures { result ≡ seen.is_mark self.now }
    {
        match self {
            Met::Packet(packet) => matches!(
                packet.name,
                Name::InR1A5 | Name::InR1A6 | Name::OutR1A9 | Name::OutR1A10
            ),
            Met::Pdu | Met::Nameless => false,
        }
    }

    /// The cookie that the channel gets anew, at the same proxy.
    pub(crate) fn renewed(&self) -> Option<Cookie>
        ensures { result ≡ seen.renewed_by self.now }
    {
        match self {
            Met::Packet(packet) => match packet.name {
                Name::InR2A2 => Some(packet.cookies.last),
                _ => None,
            },
            Met::Pdu | Met::Nameless => None,
        }
    }
}
