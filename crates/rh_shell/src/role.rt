//! What a role is: a machine over messages. Bytes, frames, places and closing are the shell's.

use crate::answers::{Count, HeadRefused, HeadTaken, Phase, Refused};
use crate::begun::Begun;
use rh_line::Leg;
use rh_rts::Cookie;
use rh_sig::{Named, Pipe};

/// A role by its rules. Each method is the rule of the same name, and none takes memory.
///
/// A role owns what its decisions read: its phase, windows, lists and meters, what waits, a Ping
/// that is due, and what goes first on a leg. It knows no frame, place, moment or cause.
pub trait Role: Drop {
    ghost use Rattle.std.specs.Prelude.{◌≡◌, ◌≤◌, length, []};
    ghost use Rattle.rh_http.specs.Reading.{greatest_head};
    ghost use Rattle.rh_pdu.specs.Frames.{IsPdu};
    ghost use Rattle.rh_shell.specs.Rules.{Rules, put_into};

    ghost rules: { Rules Self };

    /// How far the role has come.
    fn phase(&self) -> Phase
        ensures { result ≡ rules.phase self.now };

    /// Whether the role asks for the leg to be connected, where there is room for it.
    fn wants(&self, leg: Leg) -> bool
        ensures { result ≡ rules.wants self.now leg };

    /// Whether the leg is wanted, or may be accepted, where there is room for it.
    fn may_up(&self, leg: Leg) -> bool
        ensures { result ≡ rules.may_up self.now leg };

    /// Whether the leg was ever up.
    fn was_up(&self, leg: Leg) -> bool
        ensures { result ≡ rules.was_up self.now leg };

    /// The leg is up: what is put there first becomes due. The cookie names the channel of a
    /// client's leg; other roles pass it over.
    fn up(&mut self, leg: Leg, cookie: Cookie)
        ensures { self.new ≡ rules.up self.old leg cookie };

    /// The pipe on which the role reads packets on the leg; `None` where none come.
    fn pipe(&self, leg: Leg) -> Option<Pipe>
        ensures { result ≡ rules.pipe self.now leg };

    /// A head came: the bytes up to and with its blank line, or 16,384 bytes that have none.
    fn head(&mut self, leg: Leg, text: &[u8]) -> Result<HeadTaken, HeadRefused>
        requires { length text.now ≤ greatest_head }
        ensures { (self.new, result) ≡ rules.head self.old leg text.now };

    /// An RPC PDU came, behind so many packets.
    fn pdu(&mut self, leg: Leg, count: Count, pdu: &[u8]) -> Result<(), Refused>
        requires { IsPdu pdu.now }
        ensures { (self.new, result) ≡ rules.pdu self.old leg count pdu.now };

    /// A packet came that is no Ping, behind so many packets.
    fn packet(&mut self, leg: Leg, count: Count, packet: Named) -> Result<(), Refused>
        ensures { (self.new, result) ≡ rules.packet self.old leg count packet };

    /// Whether the role has no use for the leg any more.
    fn is_done(&self, leg: Leg) -> bool
        ensures { result ≡ rules.is_done self.now leg };

    /// Puts the next message of the leg, where one may go.
    fn put(&mut self, leg: Leg, begun: &mut Begun)
        requires { begun.old ≡ [] }
        ensures { (self.new, begun.new) ≡ put_into self.old (rules.put self.old leg) };

    /// The last message that was put on the leg was drawn to its end.
    fn drawn(&mut self, leg: Leg)
        ensures { self.new ≡ rules.drawn self.old leg };

    /// Whether the end or break of the leg only marks it.
    fn only_marks(&self, leg: Leg) -> bool
        ensures { result ≡ rules.only_marks self.now leg };

    /// The leg is marked as ended.
    fn mark(&mut self, leg: Leg)
        ensures { self.new ≡ rules.mark self.old leg };

    /// The leg on which the client is told that a wanted leg cannot be connected.
    fn answers_on(&self) -> Option<Leg>
        ensures { result ≡ rules.answers_on self.now };

    /// How long the leg may be silent, in milliseconds, where it is watched.
    fn silence(&self, leg: Leg) -> Option<u32>
        ensures { result ≡ rules.silence self.now leg };

    /// A Ping is due on the leg where nothing was put for half of this time, in milliseconds.
    fn ping_after(&self, leg: Leg) -> Option<u64>
        ensures { result ≡ rules.ping_after self.now leg };

    /// A Ping becomes due on the leg.
    fn ping(&mut self, leg: Leg)
        ensures { self.new ≡ rules.ping self.old leg };
}
