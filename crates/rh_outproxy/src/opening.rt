//! How the legs come up and the channel opens (MS-RPCH 3.2).

use crate::rows::{Row, is_first, is_second};
use crate::state::{Answer, Channel, ClientLeg, OutProxyRole, ServerLeg};
use rh_http::lengths::{GREATEST_ECHO, OPENS_OUT, REPLACES_OUT};
use rh_http::{Request, judge_request};
use rh_line::Leg;
use rh_rts::Cookie;
use rh_shell::{Behind, Count, HeadRefused, HeadTaken, Refused};
use rh_sig::Named;
use rh_sig::ranges::PROTOCOL_VERSION;
use rh_window::SendWindow;

impl OutProxyRole {
    ghost use Rattle.std.specs.Prelude.{◌≡◌, ◌≤◌, length, IfSome, Ok};
    ghost use Rattle.rh_http.specs.Heads.Verdicts.{asked};
    ghost use Rattle.rh_http.specs.Reading.{greatest_head};
    ghost use Rattle.rh_sig.specs.Values.{MayBeWritten};
    ghost use Rattle.rh_outproxy.specs.Opening as seen;

    // ---- legs

    /// The server's leg is wanted once the first packet came from the client.
    pub(crate) fn wants_leg(&self, leg: Leg) -> bool
        ensures { result ≡ seen.wants self.now leg }
    {
        self.is_os(leg)
            && !matches!(self.channel, Channel::Unknown)
            && self.server == ServerLeg::Down
    }

    /// The client's leg is accepted once.
    pub(crate) fn may_be_up(&self, leg: Leg) -> bool
        ensures { result ≡ seen.may_up self.now leg }
    {
        self.wants_leg(leg) || (self.is_co(leg) && self.client == ClientLeg::Down)
    }

    pub(crate) fn had_leg(&self, leg: Leg) -> bool
        ensures { result ≡ seen.was_up self.now leg }
    {
        (self.is_co(leg) && self.client != ClientLeg::Down)
            || (self.is_os(leg) && self.server != ServerLeg::Down)
    }

    pub(crate) fn leg_is_up(&mut self, leg: Leg, _cookie: Cookie)
        ensures { self.new ≡ seen.up self.old leg _cookie }
    {
        if self.is_co(leg) {
            self.client = ClientLeg::Up;
        } else {
            self.server = ServerLeg::FirstDue;
            self.answer = Answer::ResponseDue;
        }
    }

    // ---- the request

    /// The request for an OUT channel, or an echo request.
    pub(crate) fn on_head(&mut self, _leg: Leg, text: &[u8]) -> Result<HeadTaken, HeadRefused>
        requires { length text.now ≤ greatest_head }
        ensures { (self.new, result) ≡ seen.head self.old _leg text.now }
    {
        match judge_request(text, false) {
            Ok(request) => Ok(self.on_request(request)),
            Err(fault) => Err(HeadRefused::Request(fault)),
        }
    }

    fn on_request(&mut self, request: Request) -> HeadTaken
        ensures { (self.new, Ok result) ≡ seen.asked self.old (asked request) }
    {
        if request.length <= GREATEST_ECHO {
            self.answer = Answer::EchoDue;
            return HeadTaken {
                behind: Behind::PassedOver,
                length: request.length,
            };
        }
        self.request = Some(request);
        HeadTaken {
            behind: Behind::Frames,
            length: request.length,
        }
    }

    /// Whether the request told this Content-Length.
    fn told_length(&self, length: u32) -> bool
        ensures { result ≡ seen.told_length self.now.request length }
    {
        match self.request {
            None => false,
            Some(request) => request.length == length,
        }
    }

    // ---- rows

    /// CONN/A1 comes first, behind a request for a new channel.
    pub(crate) fn on_conn_a1(
        &mut self,
        count: Count,
        connection: Cookie,
        cookie: Cookie,
        size: u32,
    ) -> Row
        ensures { (self.new, result) ≡ seen.on_conn_a1 self.old count connection cookie size }
    {
        if !is_first(count) || !self.told_length(OPENS_OUT) {
            return Err(Refused::Unexpected);
        }
        self.channel = Channel::New { connection, cookie };
        self.window = SendWindow::new(size);
        Ok(())
    }

    /// OUT_R1/A3 comes first, behind a request for a successor.
    pub(crate) fn on_out_r1_a3(
        &mut self,
        count: Count,
        connection: Cookie,
        predecessor: Cookie,
        cookie: Cookie,
        size: u32,
    ) -> Row
        ensures { (self.new, result)
            ≡ seen.on_out_r1_a3 self.old count connection predecessor cookie size }
    {
        if !is_first(count) || !self.told_length(REPLACES_OUT) {
            return Err(Refused::Unexpected);
        }
        self.channel = Channel::Successor {
            connection,
            predecessor,
            cookie,
        };
        self.window = SendWindow::new(size);
        Ok(())
    }

    /// OUT_R2/C1 comes second, behind OUT_R1/A3.
    pub(crate) fn on_out_r2_c1(&mut self, count: Count) -> Row
        ensures { (self.new, result) ≡ seen.on_out_r2_c1 self.old count }
    {
        if is_second(count) && matches!(self.channel, Channel::Successor { .. }) {
            Ok(())
        } else {
            Err(Refused::Unexpected)
        }
    }

    /// CONN/C1 is forwarded as C2, where CONN/A1 came and no C1.
    pub(crate) fn on_conn_c1(&mut self, version: u32, size: u32, timeout: u32) -> Row
        ensures { (self.new, result) ≡ seen.on_conn_c1 self.old version size timeout }
    {
        let Channel::New { connection, cookie } = self.channel else {
            return Err(Refused::Unexpected);
        };
        self.channel = Channel::Joined { connection, cookie };
        self.forward(Named::ConnC2(version, size, timeout))
    }

    // ---- what goes first to the server

    /// CONN/A2 or OUT_R1/A4.
    pub(crate) fn first_packet(&self) -> Option<Named>
        ensures value { result ≡ seen.first_packet self.now self.now.channel }
        ensures plain { IfSome result MayBeWritten }
    {
        let own = self.config;
        match self.channel {
            Channel::Unknown => None,
            Channel::New { connection, cookie } | Channel::Joined { connection, cookie } => {
                Some(Named::ConnA2(
                    PROTOCOL_VERSION,
                    connection,
                    cookie,
                    own.lifetime,
                    own.window,
                ))
            }
            Channel::Successor {
                connection,
                predecessor,
                cookie,
            } => Some(Named::OutR1A4(
                PROTOCOL_VERSION,
                connection,
                predecessor,
                cookie,
                own.lifetime,
                own.window,
                own.timeout,
            )),
        }
    }
}
