//! The IN channel is replaced, by another in proxy or by the same one (profile).

ghost use Rattle.std.specs.Prelude.{◌≡◌};
ghost use Rattle.rh_server.specs.States.{is_waiting};
ghost use Rattle.rh_server.specs.InReplacement.{is_fresh_below, has_fresh_below, waiting_place};

use crate::opening::{Row, is_first};
use crate::out_line::Kind;
use crate::state::{
    Edge, InChannel, InLeg, InStage, Leaving, Newest, ServerRole, Stage, same_cookie,
};
use rh_line::{LAST_NUMBER, LineTake, Which};
use rh_pdu::header::GREATEST_FRAG;
use rh_rts::{Cookie, TO_CLIENT};
use rh_shell::{Count, Refused};
use rh_sig::Named;
use rh_sig::ranges::PROTOCOL_VERSION;

/// Whether a leg is below this one, and no packet came on it.
fn is_fresh_below(number: u32, leg: &InLeg) -> bool
    ensures { result ≡ is_fresh_below number leg.now }
{
    leg.number < number && matches!(leg.stage, InStage::Fresh)
}

/// Whether IN_R1/A2 came, and the channel is not open yet.
pub(crate) fn is_waiting(stage: InStage) -> bool
    ensures { result ≡ is_waiting stage }
{
    matches!(stage, InStage::Waits { .. })
}

/// The place of the first leg whose channel waits.
fn waiting_place(legs: &[InLeg]) -> Option<usize>
    ensures { result ≡ waiting_place legs.now }
{
    legs.iter().position(|leg| is_waiting(leg.stage))
}

/// Whether no packet came on a leg below this one.
fn has_fresh_below(number: u32, legs: &[InLeg]) -> bool
    ensures { result ≡ has_fresh_below number legs.now }
{
    legs.iter().any(|leg| is_fresh_below(number, leg))
}

impl ServerRole {
    ghost use Rattle.std.specs.Prelude.{true, false, Some};
    ghost use Rattle.rh_line.specs.Lines.{take_answer};
    ghost use Rattle.rh_line.specs.Queue.{put_first};
    ghost use Rattle.rh_server.specs.declared.out_line.Kind.TheVariants.{InR1A3, InR2A3};
    ghost use Rattle.rh_server.specs.declared.state.InStage.TheVariants.{Waits};
    ghost use Rattle.rh_server.specs.OutLines.{waits};
    ghost use Rattle.rh_server.specs.InReplacement as seen;

    /// The channel of the leg is the next one, with a shut window, and IN_R1/A3 is due.
    fn opens_next(&mut self, leg: InLeg, window: u32, timeout: u32, ended: bool)
        requires next { self.old.line.has_next ≡ false }
        requires once { waits InR1A3 self.old.waiting ≡ false }
        ensures { self.new ≡ seen.opens_next self.old leg (Waits window timeout ended) }
    {
        self.next_begins(leg, ended);
        self.tells_next(window, timeout);
        self.set_in(leg.opened());
    }

    /// There is a next channel, with a shut window.
    fn next_begins(&mut self, leg: InLeg, ended: bool)
        requires { self.old.line.has_next ≡ false }
        ensures { self.new ≡ seen.next_begun self.old leg ended }
    {
        self.line.open_next(true);
        if ended {
            self.line.end(Which::Next);
        }
        self.next = InChannel {
            leg: leg.number,
            number: leg.number,
            cookie: leg.cookie,
        };
    }

    /// IN_R1/A3 is due.
    fn tells_next(&mut self, window: u32, timeout: u32)
        requires { waits InR1A3 self.old.waiting ≡ false }
        ensures { self.new ≡ seen.next_told self.old window timeout }
    {
        self.out_line.add(
            Kind::InR1A3,
            Named::InR1A3(TO_CLIENT, PROTOCOL_VERSION, window, timeout),
        );
    }

    /// The place of the first leg whose channel waits.
    fn waiting_place(&self) -> Option<usize>
        ensures { result ≡ seen.waiting_place self.now.ins }
    {
        waiting_place(&self.ins)
    }

    /// The first leg whose channel waits.
    fn first_waiting(&self) -> Option<InLeg>
        ensures { result ≡ seen.first_waiting self.now.ins }
    {
        let place = self.waiting_place()?;
        Some(self.ins[place])
    }

    /// Whether there is a next channel.
    fn has_next(&self) -> bool
        ensures { result ≡ self.now.line.has_next }
    {
        self.line.has_next()
    }

    /// The first channel that waits is opened where there is no next one.
    fn open_waiting(&mut self)
        ensures { self.new ≡ seen.next_opened self.old }
    {
        if self.has_next() || self.waits(Kind::InR1A3) {
            return;
        }
        let Some(leg) = self.first_waiting() else {
            return;
        };
        match leg.stage {
            InStage::Fresh | InStage::Opened => {}
            InStage::Waits {
                window,
                timeout,
                ended,
            } => self.opens_next(leg, window, timeout, ended),
        }
    }

    /// Takes the next PDU into the room. The next channel may become current by that.
    pub(crate) fn take_pdu(&mut self, room: &mut [u8; GREATEST_FRAG]) -> LineTake
        ensures answer { result ≡ take_answer self.old.line }
        ensures room { room.new ≡ put_first self.old.line.current.pdus room.old }
        ensures new { self.new ≡ seen.take self.old }
    {
        let had_next = self.line.has_next();
        let taken = self.line.take(room);
        if had_next && !self.line.has_next() {
            self.current = self.next;
            self.edge = Edge::Shut;
            self.is_left = false;
            self.open_waiting();
        }
        taken
    }

    /// Whether no packet came on a leg below this one.
    fn has_fresh_below(&self, number: u32) -> bool
        ensures { result ≡ seen.has_fresh_below number self.now.ins }
    {
        has_fresh_below(number, &self.ins)
    }

    pub(crate) fn on_in_r1_a2(
        &mut self,
        number: u32,
        count: Count,
        connection: Cookie,
        predecessor: Cookie,
        successor: Cookie,
        window: u32,
        timeout: u32,
    ) -> Row
        ensures { (self.new, result) ≡ seen.on_in_r1_a2 self.old number count connection
            predecessor successor window timeout }
    {
        if !is_first(count) || self.has_fresh_below(number) {
            return Err(Refused::Unexpected);
        }
        self.in_r1_a2_at(number, connection, predecessor, successor, window, timeout)
    }

    /// IN_R1/A2 came where it may come: the connection is this one, and the predecessor the newest
    /// channel.
    fn in_r1_a2_at(
        &mut self,
        number: u32,
        connection: Cookie,
        predecessor: Cookie,
        successor: Cookie,
        window: u32,
        timeout: u32,
    ) -> Row
        ensures { (self.new, result) ≡ seen.in_r1_a2_at self.old self.old.stage number connection
            predecessor successor window timeout }
    {
        let Stage::Open(first) = self.stage_now() else {
            return Err(Refused::Unexpected);
        };
        let Some(leg) = self.in_leg(number) else {
            return Err(Refused::Unexpected);
        };
        if !matches!(leg.stage, InStage::Fresh) {
            return Err(Refused::Unexpected);
        }
        if !same_cookie(first, connection) {
            return Err(Refused::Cookie {
                expected: first,
                got: connection,
            });
        }
        let newest = self.newest_cookie();
        if !same_cookie(newest, predecessor) {
            return Err(Refused::Cookie {
                expected: newest,
                got: predecessor,
            });
        }
        self.announced(leg, successor, window, timeout);
        Ok(())
    }

    /// The cookie of the newest channel.
    fn newest_cookie(&self) -> Cookie
        ensures { result ≡ self.now.newest.cookie }
    {
        self.newest.cookie
    }

    /// The newest channel is that of the leg.
    fn set_newest(&mut self, leg: u32, cookie: Cookie)
        ensures { self.new ≡ seen.with_newest self.old leg cookie }
    {
        self.newest = Newest { leg, cookie };
    }

    /// IN_R1/A2 came: the channel of the leg waits, or is the next one.
    fn announced(&mut self, leg: InLeg, successor: Cookie, window: u32, timeout: u32)
        ensures { self.new ≡ seen.announced self.old leg successor window timeout }
    {
        self.set_newest(leg.number, successor);
        self.set_in(InLeg {
            cookie: successor,
            stage: InStage::Waits {
                window,
                timeout,
                ended: false,
            },
            ..leg
        });
        self.open_waiting();
    }

    /// IN_R1/B1 is due on the leg.
    fn leaves(&mut self, number: u32)
        ensures { self.new ≡ seen.leaves self.old number }
    {
        let Some(leg) = self.in_leg(number) else {
            return;
        };
        self.set_in(InLeg {
            leaving: Leaving::InR1B1,
            ..leg
        });
    }

    /// The current channel is finished: the next one is current, at once or behind the last PDU.
    fn hands_over(&mut self, number: u32)
        requires { self.old.line.has_next ≡ true }
        ensures { self.new ≡ seen.hands_over self.old number }
    {
        self.leaves(number);
        self.line.finish();
        self.is_left = self.line.has_next();
        if !self.is_left {
            self.current = self.next;
            self.edge = Edge::Shut;
            self.open_waiting();
        }
    }

    /// Whether the leg carries the current channel, and the next one was told.
    fn may_hand_over(&self, number: u32) -> bool
        ensures { result ≡ seen.may_hand_over self.now number }
    {
        number == self.current.leg
            && !self.is_left
            && self.line.has_next()
            && !self.out_line.waits(Kind::InR1A3)
    }

    /// The cookie of the next channel.
    fn next_cookie(&self) -> Cookie
        ensures { result ≡ self.now.next.cookie }
    {
        self.next.cookie
    }

    pub(crate) fn on_in_r1_a6(&mut self, number: u32, successor: Cookie) -> Row
        ensures { (self.new, result) ≡ seen.on_in_r1_a6 self.old number successor }
    {
        if !self.may_hand_over(number) {
            return Err(Refused::Unexpected);
        }
        let next = self.next_cookie();
        if !same_cookie(next, successor) {
            return Err(Refused::Cookie {
                expected: next,
                got: successor,
            });
        }
        self.hands_over(number);
        Ok(())
    }

    pub(crate) fn on_in_r2_a2(&mut self, number: u32, count: Count, successor: Cookie) -> Row
        ensures { (self.new, result) ≡ seen.on_in_r2_a2 self.old number count successor }
    {
        if is_first(count) || !self.may_carry() {
            return Err(Refused::Unexpected);
        }
        let Some(which) = self.channel_at(number) else {
            return Err(Refused::Unexpected);
        };
        self.carries_next(number, successor, which);
        Ok(())
    }

    /// Whether a leg may carry one more channel: each IN_R2/A3 before was put, and a number is left.
    fn may_carry(&self) -> bool
        ensures { result ≡ seen.may_carry self.now }
    {
        self.is_open() && !self.out_line.waits(Kind::InR2A3) && self.newest_in < LAST_NUMBER
    }

    /// The leg carries the channel with the next number, and IN_R2/A3 is due.
    fn carries_next(&mut self, number: u32, successor: Cookie, which: Which)
        requires { seen.may_carry self.old ≡ true }
        ensures { self.new ≡ seen.carries_next self.old number successor which }
    {
        self.newest_in += 1;
        match which {
            Which::Current => self.current.number = self.newest_in,
            Which::Next => self.next.number = self.newest_in,
        }
        self.newest.carries(number, successor);
        self.out_line.add(Kind::InR2A3, Named::InR2A3(TO_CLIENT));
    }
}
