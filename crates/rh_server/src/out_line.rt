//! The packets that wait for os legs.

ghost use Rattle.std.specs.Prelude.{◌≡◌};
ghost use Rattle.rh_server.specs.OutLines.{kind_of, are_kind, length_of, lets_by_meter, lets_packet};

use crate::state::{LEGS, same_cookie};
use rh_keep::Meter;
use rh_rts::{Cookie, TO_OUT_PROXY};
use rh_shell::{Due, FORWARDED_ROOM, Gate, Origin, Waiting};
use rh_sig::Named;
use rh_sig::lengths::{
    ACK_TO_LEN, CONN_C1_LEN, IN_R1_A3_LEN, IN_R2_A3_LEN, OUT_R1_A1_LEN, OUT_R1_A5_LEN,
    OUT_R1_A9_LEN,
};
use std::alloc::{AllocError, Global};
use std::marker::Model;

/// How many packets may wait that are to be forwarded: those of a leg, and one more for each OUT
/// leg.
pub const LINE_ROOM: u8 = FORWARDED_ROOM + LEGS;

/// The kinds of the server's own packets on the OUT line. Of each one waits at most.
#[derive(Clone, Copy)]
pub enum Kind {
    ConnC1,
    InR1A3,
    InR2A3,
    /// OUT_R1/A1, A5 or A9.
    OutR1,
}

/// The kind of a packet, where it has one.
fn kind_of(packet: &Named) -> Option<Kind>
    ensures { result ≡ kind_of packet.now }
{
    match packet {
        Named::ConnC1(..) => Some(Kind::ConnC1),
        Named::InR1A3(..) => Some(Kind::InR1A3),
        Named::InR2A3(..) => Some(Kind::InR2A3),
        Named::OutR1A1(..) | Named::OutR1A5(..) | Named::OutR1A9 => Some(Kind::OutR1),
        _ => None,
    }
}

fn are_kind(kind: Kind, other: Option<Kind>) -> bool
    ensures { result ≡ are_kind kind other }
{
    match other {
        None => false,
        Some(other) => kind == other,
    }
}

/// Lets the server's own packets of a kind go.
#[derive(Drop)]
pub(crate) struct OfKind(pub(crate) Kind);

impl Gate for OfKind {
    ghost use Rattle.rh_server.specs.OutLines.{is_own};

    ghost lets = { λ s due. is_own s.0 due };

    fn may_go(&self, due: &Due) -> bool {
        due.is_of(Origin::Own) && are_kind(self.0, kind_of(&due.packet))
    }
}

/// Lets an acknowledgement go with which this packet is merged.
#[derive(Drop)]
pub(crate) struct Taking(pub(crate) Named);

impl Gate for Taking {
    ghost use Rattle.rh_shell.specs.Waiting.{takes};

    ghost lets = { λ s due. takes s.0 due };

    fn may_go(&self, due: &Due) -> bool {
        match (due.packet, self.0) {
            (Named::AckTo(older, _, _, channel), Named::AckTo(newer, _, _, other)) => {
                older == newer && same_cookie(channel, other)
            }
            _ => false,
        }
    }
}

/// Lets packets go on an os leg: an AckTo 3 on the leg of its channel, and all others on the
/// writing one, where its meter lets them.
#[derive(Drop)]
pub(crate) struct LegGate {
    pub(crate) cookie: Cookie,
    pub(crate) meter: Meter,
    pub(crate) is_writing: bool,
    pub(crate) hands_over: bool,
}

/// How many bytes a packet has that goes on the writing channel (MS-RPCH 2.2.4).
pub(crate) fn length_of(packet: &Named) -> u16
    ensures { result ≡ length_of packet.now }
{
    match packet {
        Named::ConnC1(..) => CONN_C1_LEN,
        Named::InR1A3(..) => IN_R1_A3_LEN,
        Named::InR2A3(..) => IN_R2_A3_LEN,
        Named::OutR1A1(..) => OUT_R1_A1_LEN,
        Named::OutR1A5(..) => OUT_R1_A5_LEN,
        Named::OutR1A9 => OUT_R1_A9_LEN,
        Named::AckTo(..) => ACK_TO_LEN,
        _ => 0,
    }
}

/// Whether the meter lets a packet go: those of a replacement ask whether they fit.
fn lets_by_meter(meter: &Meter, packet: &Named) -> bool
    ensures { result ≡ lets_by_meter meter.now packet.now }
{
    let len = length_of(packet);
    match packet {
        Named::InR1A3(..)
        | Named::InR2A3(..)
        | Named::OutR1A1(..)
        | Named::OutR1A5(..)
        | Named::OutR1A9 => meter.fits(len),
        Named::ConnC1(..) | Named::AckTo(..) => meter.may_put(len),
        _ => false,
    }
}

impl Model for LegGate {
    ghost use Rattle.rh_server.specs.OutLines as seen;

    ghost Value = { seen.Gate };

    ghost view = { λ g. record {
      cookie = g.cookie;
      meter = g.meter;
      is_writing = g.is_writing;
      hands_over = g.hands_over;
    } };
}

impl Gate for LegGate {
    ghost use Rattle.rh_server.specs.OutLines as seen;

    ghost lets = { λ g due. seen.lets g due };

    fn may_go(&self, due: &Due) -> bool {
        match due.packet {
            Named::AckTo(3, _, _, cookie) => same_cookie(cookie, self.cookie),
            Named::OutR1A9 => self.is_writing && self.hands_over && self.meter.fits(OUT_R1_A9_LEN),
            packet => self.is_writing && lets_by_meter(&self.meter, &packet),
        }
    }
}

/// The packets that wait for os legs, in the order in which they became due.
#[derive(Drop)]
pub(crate) struct OutLine {
    waiting: Waiting,
}

impl Model for OutLine {
    ghost use Rattle.rh_shell.specs.Waiting as waits;
    ghost use Rattle.rh_server.specs.OutLines.{AreOnce};

    ghost Value = { waits.Waiting };

    ghost view = { λ l. l.waiting };

    // so that there is always room for the server's own
    ghost invariant = { λ l. AreOnce l.waiting.due };
}

impl OutLine {
    ghost use Rattle.std.specs.Prelude.{◌≡◌, IfOk, IfSome, IfNone, IsTrue, false, true};
    ghost use Rattle.rh_sig.specs.Values.{MayBeWritten};
    ghost use Rattle.rh_shell.specs.declared.due.Origin.TheVariants.{Forwarded as to_forward};
    ghost use Rattle.rh_shell.specs.Waiting.{empty, added, forwarded, taken, count};
    ghost use Rattle.rh_server.specs.declared.out_line.TheConstants.{LINE_ROOM};
    ghost use Rattle.rh_server.specs.OutLines as seen;

    /// No packet, with room for those that are to be forwarded: 16 on the writing channel, and one
    /// for each leg.
    pub(crate) fn new(alloc: Global) -> Result<OutLine, AllocError>
        ensures { IfOk result (λ line. line ≡ empty LINE_ROOM) }
    {
        Ok(OutLine {
            waiting: Waiting::new(alloc, LINE_ROOM)?,
        })
    }

    /// Whether a packet waits that may go.
    pub(crate) fn has<G: Gate>(&self, gate: &G) -> bool
        ensures { result ≡ seen.has (G.lets gate.now) self.now }
    {
        self.waiting.first_fit(gate).is_some()
    }

    /// Whether a packet of the server's own of this kind waits.
    pub(crate) fn waits(&self, kind: Kind) -> bool
        ensures { result ≡ seen.waits kind self.now }
    {
        self.has(&OfKind(kind))
    }

    /// Whether an AckTo 3 waits for this channel.
    pub(crate) fn has_ack_of(&self, cookie: Cookie) -> bool
        ensures { result ≡ seen.has (seen.is_ack_of cookie) self.now }
    {
        self.has(&Taking(Named::AckTo(TO_OUT_PROXY, 0, 0, cookie)))
    }

    /// An AckTo 3 for this channel is dropped, where one waits.
    pub(crate) fn drop_ack_of(&mut self, cookie: Cookie)
        ensures { self.new ≡ (taken (seen.is_ack_of cookie) self.old).0 }
    {
        let _ = self.take(&Taking(Named::AckTo(TO_OUT_PROXY, 0, 0, cookie)));
    }

    /// How many wait that are to be forwarded.
    pub(crate) fn to_forward(&self) -> usize
        ensures { result ≡ count to_forward self.now.due }
    {
        self.waiting.count(Origin::Forwarded)
    }

    /// A packet of the server's own becomes due. None of its kind waits.
    pub(crate) fn add(&mut self, kind: Kind, packet: Named)
        requires writable { MayBeWritten packet }
        requires kind { seen.is_kind kind packet ≡ true }
        requires once { seen.waits kind self.old ≡ false }
        ensures { self.new ≡ added self.old packet }
    {
        self.waiting.add(packet);
    }

    /// A packet is to be forwarded: the answer of `Waiting::forward`.
    pub(crate) fn forward(&mut self, packet: Named) -> bool
        requires writable { MayBeWritten packet }
        requires ack { seen.is_ack packet ≡ true }
        ensures { (self.new, result) ≡ forwarded self.old packet }
    {
        self.waiting.forward(packet)
    }

    /// Takes the first packet that may go.
    pub(crate) fn take<G: Gate>(&mut self, gate: &G) -> Option<Due>
        ensures taken { (self.new, result) ≡ taken (G.lets gate.now) self.old }
        ensures writable { IfSome result (λ due. MayBeWritten due.packet) }
        ensures none { IfNone result (self.new ≡ self.old) }
        ensures lets { IfSome result (λ due. IsTrue (G.lets gate.now due)) }
    {
        self.waiting.take(gate)
    }
}
