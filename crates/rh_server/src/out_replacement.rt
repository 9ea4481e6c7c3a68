//! The OUT channel is replaced (profile).

ghost use Rattle.std.specs.Prelude.{◌≡◌};

use crate::acknowledging::out_server;
use crate::opening::{Row, is_first};
use crate::out_line::Kind;
use crate::state::{Replacement, ServerRole, Stage, same_cookie};
use rh_keep::Meter;
use rh_line::LAST_NUMBER;
use rh_rts::{Cookie, TO_CLIENT, TO_SERVER};
use rh_shell::{Count, RecycleRefused, Refused};
use rh_sig::Named;
use rh_sig::ranges::PROTOCOL_VERSION;

impl ServerRole {
    ghost use Rattle.std.specs.Prelude.{false};
    ghost use Rattle.rh_server.specs.declared.out_line.Kind.TheVariants.{OutR1};
    ghost use Rattle.rh_server.specs.OutLines.{waits};
    ghost use Rattle.rh_server.specs.States.{out_cookie};
    ghost use Rattle.rh_server.specs.OutReplacement as seen;

    /// Whether a replacement is under way, or a packet of it still waits.
    fn is_under_way(&self) -> bool
        ensures { result ≡ seen.is_under_way self.now }
    {
        !matches!(self.replacement, Replacement::Steady) || self.out_line.waits(Kind::OutR1)
    }

    /// OUT_R1/A1 is due.
    fn asks(&mut self)
        requires { waits OutR1 self.old.waiting ≡ false }
        ensures { self.new ≡ seen.asks self.old }
    {
        self.replacement = Replacement::Asked;
        self.out_line.add(Kind::OutR1, Named::OutR1A1(TO_CLIENT));
    }

    /// The writing channel is to be replaced. Nothing has changed where that is refused.
    pub(crate) fn recycle_out(&mut self) -> Result<(), RecycleRefused>
        ensures { (self.new, result) ≡ seen.recycle self.old }
    {
        let writing = self.writing_now();
        if writing == LAST_NUMBER {
            return Err(RecycleRefused::Last);
        }
        if self.is_under_way() {
            return Err(RecycleRefused::Busy {
                under_way: out_server(writing + 1),
            });
        }
        self.asks();
        Ok(())
    }

    /// Whether the writing channel's meter wishes for a successor.
    fn wishes(&self) -> bool
        ensures { result ≡ seen.wishes self.now }
    {
        if !self.is_open() || self.writing == LAST_NUMBER || self.is_under_way() {
            return false;
        }
        match self.out_place(self.writing) {
            None => false,
            Some(place) => self.outs[place].meter.wanted(),
        }
    }

    /// A replacement begins where the meter wishes for it.
    pub(crate) fn wish(&mut self)
        ensures { self.new ≡ seen.wished self.old }
    {
        if self.wishes() {
            self.asks();
        }
    }

    /// Whether OUT_R1/A4 may come on the leg: OUT_R1/A1 was put, and none came since.
    fn is_asked(&self, number: u32, count: Count) -> bool
        ensures { result ≡ (seen.may_answer self.now number count) }
    {
        is_first(count)
            && u64::from(number) == u64::from(self.writing) + 1
            && matches!(self.replacement, Replacement::Asked)
            && !self.out_line.waits(Kind::OutR1)
    }

    /// The cookie of the writing channel.
    fn writing_cookie(&self) -> Option<Cookie>
        ensures { result ≡ out_cookie self.now.writing self.now.outs }
    {
        self.out_cookie(self.writing)
    }

    pub(crate) fn on_out_r1_a4(
        &mut self,
        number: u32,
        count: Count,
        connection: Cookie,
        predecessor: Cookie,
        successor: Cookie,
        lifetime: u32,
        window: u32,
        timeout: u32,
    ) -> Row
        ensures { (self.new, result) ≡ seen.on_out_r1_a4 self.old number count connection
            predecessor successor lifetime window timeout }
    {
        if !self.is_asked(number, count) {
            return Err(Refused::Unexpected);
        }
        let Stage::Open(first) = self.stage_now() else {
            return Err(Refused::Unexpected);
        };
        let Some(writing) = self.writing_cookie() else {
            return Err(Refused::Unexpected);
        };
        if !same_cookie(first, connection) {
            return Err(Refused::Cookie {
                expected: first,
                got: connection,
            });
        }
        if !same_cookie(writing, predecessor) {
            return Err(Refused::Cookie {
                expected: writing,
                got: predecessor,
            });
        }
        self.answered(number, successor, lifetime, window, timeout)
    }

    /// The successor's channel begins, and OUT_R1/A5 is due on the predecessor.
    fn answered(
        &mut self,
        number: u32,
        successor: Cookie,
        lifetime: u32,
        window: u32,
        timeout: u32,
    ) -> Row
        requires { waits OutR1 self.old.waiting ≡ false }
        ensures { (self.new, result)
            ≡ seen.answered_on self.old number successor lifetime window timeout }
    {
        let Some(place) = self.out_place(number) else {
            return Err(Refused::Unexpected);
        };
        self.outs[place].begins(successor, window, Meter::new(lifetime, 0));
        self.replacement = Replacement::Answered(successor);
        self.out_line.add(
            Kind::OutR1,
            Named::OutR1A5(TO_CLIENT, PROTOCOL_VERSION, timeout),
        );
        Ok(())
    }

    pub(crate) fn on_out_r1_a8(&mut self, count: Count, destination: u32, successor: Cookie) -> Row
        ensures { (self.new, result) ≡ seen.on_out_r1_a8 self.old count destination successor }
    {
        if is_first(count) || destination != TO_SERVER || self.waits(Kind::OutR1) {
            return Err(Refused::Unexpected);
        }
        let Replacement::Answered(cookie) = self.replacement_now() else {
            return Err(Refused::Unexpected);
        };
        if !same_cookie(cookie, successor) {
            return Err(Refused::Cookie {
                expected: cookie,
                got: successor,
            });
        }
        self.confirms();
        Ok(())
    }

    fn replacement_now(&self) -> Replacement
        ensures { result ≡ self.now.replacement }
    {
        self.replacement
    }

    /// OUT_R1/A9 is due.
    fn confirms(&mut self)
        requires { waits OutR1 self.old.waiting ≡ false }
        ensures { self.new ≡ seen.confirms self.old }
    {
        self.replacement = Replacement::Confirmed;
        self.out_line.add(Kind::OutR1, Named::OutR1A9);
    }
}
