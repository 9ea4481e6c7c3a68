//! A connection is opened (MS-RPCH 3.2.5).

ghost use Rattle.std.specs.Prelude.{◌≡◌};
ghost use Rattle.rh_server.specs.Opening.{in_leg_up, out_leg_up, is_first};

use crate::out_line::Kind;
use crate::state::{
    Greeting, InChannel, InLeg, InStage, LEGS, Leaving, Newest, OutLeg, ServerRole, Stage, Tells,
    same_cookie,
};
use rh_keep::Meter;
use rh_line::{Leg, LegKind};
use rh_rts::{Cookie, NO_COOKIE};
use rh_shell::{Count, Refused};
use rh_sig::Named;
use rh_sig::ranges::PROTOCOL_VERSION;
use rh_window::SendWindow;

/// What a row made of a packet: it was taken, or why it is refused.
pub(crate) type Row = Result<(), Refused>;

/// The bytes of CONN/A3, which the first OUT channel begins with.
pub const BEFORE_FIRST: u32 = 28;

/// Whether no packet came before.
pub(crate) fn is_first(count: Count) -> bool
    ensures { result ≡ is_first count }
{
    count == Count::Zero
}

/// An is leg that came up.
fn in_leg_up(number: u32) -> InLeg
    ensures { result ≡ in_leg_up number }
{
    InLeg {
        number,
        greeting: Greeting::Due,
        cookie: NO_COOKIE,
        stage: InStage::Fresh,
        tells: Tells::Nothing,
        leaving: Leaving::Stays,
    }
}

/// An os leg that came up.
fn out_leg_up(number: u32) -> OutLeg
    ensures { result ≡ out_leg_up number }
{
    OutLeg {
        number,
        greeting: Greeting::Due,
        cookie: None,
        window: SendWindow::new(0),
        meter: Meter::new(0, 0),
    }
}

impl ServerRole {
    ghost use Rattle.std.specs.Prelude.{true, false};
    ghost use Rattle.rh_line.specs.declared.leg.LegKind.TheVariants.{InServer, OutServer};
    ghost use Rattle.rh_server.specs.declared.out_line.Kind.TheVariants.{ConnC1};
    ghost use Rattle.rh_server.specs.OutLines.{waits};
    ghost use Rattle.rh_server.specs.Opening as seen;

    pub(crate) fn leg_may_up(&self, leg: Leg) -> bool
        ensures { result ≡ seen.may_up self.now leg }
    {
        let number = u64::from(leg.number);
        match leg.kind {
            LegKind::InServer => {
                number == u64::from(self.newest_in) + 1 && self.ins.len() < usize::from(LEGS)
            }
            LegKind::OutServer => {
                number == u64::from(self.newest_out) + 1 && self.outs.len() < usize::from(LEGS)
            }
            LegKind::ClientIn | LegKind::ClientOut => false,
        }
    }

    pub(crate) fn leg_was_up(&self, leg: Leg) -> bool
        ensures { result ≡ seen.was_up self.now leg }
    {
        match leg.kind {
            LegKind::InServer => leg.number <= self.newest_in && leg.number > 0,
            LegKind::OutServer => leg.number <= self.newest_out && leg.number > 0,
            LegKind::ClientIn | LegKind::ClientOut => false,
        }
    }

    /// A leg came up, and the greeting is due there.
    pub(crate) fn leg_up(&mut self, leg: Leg, _cookie: Cookie)
        ensures { self.new ≡ seen.up self.old leg _cookie }
    {
        if !self.leg_may_up(leg) {
            return;
        }
        match leg.kind {
            LegKind::InServer => self.in_up(leg.number),
            LegKind::OutServer => self.out_up(leg.number),
            LegKind::ClientIn | LegKind::ClientOut => {}
        }
    }

    fn in_up(&mut self, number: u32)
        requires { seen.has_room self.old.ins ≡ true }
        ensures { self.new ≡ seen.up_by self.old number InServer }
    {
        let Ok(()) = self.ins.push(in_leg_up(number)) else {
            unreachable!()
        };
        self.newest_in = number;
    }

    fn out_up(&mut self, number: u32)
        requires { seen.has_room self.old.outs ≡ true }
        ensures { self.new ≡ seen.up_by self.old number OutServer }
    {
        let Ok(()) = self.outs.push(out_leg_up(number)) else {
            unreachable!()
        };
        self.newest_out = number;
    }

    /// Both first packets came: CONN/B3 and CONN/C1 are due.
    fn opens(&mut self, connection: Cookie, window: u32, timeout: u32)
        requires { waits ConnC1 self.old.waiting ≡ false }
        ensures { self.new ≡ seen.opens self.old connection window timeout }
    {
        self.stage = Stage::Open(connection);
        self.out_line.add(
            Kind::ConnC1,
            Named::ConnC1(PROTOCOL_VERSION, window, timeout),
        );
    }

    /// The first OUT channel begins.
    fn with_first_out(&mut self, cookie: Cookie, lifetime: u32, window: u32)
        ensures { self.new ≡ seen.with_first_out self.old cookie lifetime window }
    {
        if let Some(place) = self.out_place(1) {
            self.outs[place].begins(cookie, window, Meter::new(lifetime, BEFORE_FIRST));
        }
    }

    pub(crate) fn on_conn_a2(
        &mut self,
        number: u32,
        count: Count,
        connection: Cookie,
        cookie: Cookie,
        lifetime: u32,
        window: u32,
    ) -> Row
        ensures { (self.new, result)
            ≡ seen.on_conn_a2 self.old number count connection cookie lifetime window }
    {
        if !is_first(count) || number != 1 || self.waits(Kind::ConnC1) {
            return Err(Refused::Unexpected);
        }
        let stage = self.stage_now();
        self.conn_a2_at(stage, connection, cookie, lifetime, window)
    }

    /// CONN/A2 came where it may come.
    fn conn_a2_at(
        &mut self,
        stage: Stage,
        connection: Cookie,
        cookie: Cookie,
        lifetime: u32,
        window: u32,
    ) -> Row
        requires { waits ConnC1 self.old.waiting ≡ false }
        ensures { (self.new, result)
            ≡ seen.conn_a2_at self.old stage connection cookie lifetime window }
    {
        match stage {
            Stage::Waits => {
                self.with_first_out(cookie, lifetime, window);
                self.set_stage(Stage::OutCame(connection));
                Ok(())
            }
            Stage::InCame {
                connection: first,
                window: in_window,
                timeout,
            } => {
                if !same_cookie(first, connection) {
                    return Err(Refused::Cookie {
                        expected: first,
                        got: connection,
                    });
                }
                self.with_first_out(cookie, lifetime, window);
                self.opens(first, in_window, timeout);
                Ok(())
            }
            Stage::OutCame(_) | Stage::Open(_) | Stage::Ended => Err(Refused::Unexpected),
        }
    }

    /// The channel of is 1 is the current one.
    fn first_current(&mut self, cookie: Cookie)
        ensures { self.new ≡ seen.first_current self.old cookie }
    {
        self.current = InChannel {
            leg: 1,
            number: 1,
            cookie,
        };
        self.newest = Newest { leg: 1, cookie };
    }

    /// The first IN channel is that of is 1.
    fn with_first_in(&mut self, cookie: Cookie)
        ensures { self.new ≡ seen.with_first_in self.old cookie }
    {
        let Some(leg) = self.in_leg(1) else {
            return;
        };
        self.first_current(cookie);
        self.set_in(InLeg {
            cookie,
            stage: InStage::Opened,
            tells: Tells::ConnB3,
            ..leg
        });
    }

    pub(crate) fn on_conn_b2(
        &mut self,
        number: u32,
        count: Count,
        connection: Cookie,
        cookie: Cookie,
        window: u32,
        timeout: u32,
    ) -> Row
        ensures { (self.new, result)
            ≡ seen.on_conn_b2 self.old number count connection cookie window timeout }
    {
        if !is_first(count) || number != 1 || self.waits(Kind::ConnC1) {
            return Err(Refused::Unexpected);
        }
        let stage = self.stage_now();
        self.conn_b2_at(stage, connection, cookie, window, timeout)
    }

    /// CONN/B2 came where it may come.
    fn conn_b2_at(
        &mut self,
        stage: Stage,
        connection: Cookie,
        cookie: Cookie,
        window: u32,
        timeout: u32,
    ) -> Row
        requires { waits ConnC1 self.old.waiting ≡ false }
        ensures { (self.new, result)
            ≡ seen.conn_b2_at self.old stage connection cookie window timeout }
    {
        match stage {
            Stage::Waits => {
                self.with_first_in(cookie);
                self.set_stage(Stage::InCame {
                    connection,
                    window,
                    timeout,
                });
                Ok(())
            }
            Stage::OutCame(first) => {
                if !same_cookie(first, connection) {
                    return Err(Refused::Cookie {
                        expected: first,
                        got: connection,
                    });
                }
                self.with_first_in(cookie);
                self.opens(first, window, timeout);
                Ok(())
            }
            Stage::InCame { .. } | Stage::Open(_) | Stage::Ended => Err(Refused::Unexpected),
        }
    }
}
