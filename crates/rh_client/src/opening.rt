//! The opening of channels.

ghost use Rattle.std.specs.Prelude.{◌≡◌, ◌≤◌, length};
ghost use Rattle.rh_http.specs.Heads.Verdicts.{response_verdict};
ghost use Rattle.rh_http.specs.Reading.{greatest_head};
ghost use Rattle.rh_client.specs.Opening.{head_by, pipe_by};

use crate::state::ClientRole;
use rh_http::judge_response;
use rh_http::lengths::SUCCESS;
use rh_line::LegKind;
use rh_rts::Cookie;
use rh_shell::answers::Behind;
use rh_shell::{Count, HeadRefused, HeadTaken, Phase, Refused};
use rh_sig::Pipe;

impl ClientRole {
    ghost use Rattle.std.specs.Prelude.{◌≡◌};
    ghost use Rattle.rh_client.specs.Opening as seen;

    /// Whether the leg of this IN channel is asked for.
    fn wants_in(&self, number: u32) -> bool
        ensures { result ≡ seen.wants_in self.now number }
    {
        (self.is_writing(number) && !self.writing.opening.is_up())
            || (self.is_in_successor(number) && !self.in_successor.opening.is_up())
    }

    /// Whether the leg of this OUT channel is asked for.
    fn wants_out(&self, number: u32) -> bool
        ensures { result ≡ seen.wants_out self.now number }
    {
        (self.is_current(number) && !self.current.opening.is_up())
            || (self.is_out_successor(number) && !self.out_successor.opening.is_up())
    }

    pub(crate) fn wants_by(&self, number: u32, kind: LegKind) -> bool
        ensures { result ≡ seen.wants_by self.now number kind }
    {
        match kind {
            LegKind::ClientOut => self.wants_out(number),
            LegKind::ClientIn => self.wants_in(number),
            LegKind::OutServer | LegKind::InServer => false,
        }
    }

    /// Whether the leg of this IN channel was ever up.
    fn was_in_up(&self, number: u32) -> bool
        ensures { result ≡ seen.was_in_up self.now number }
    {
        (number > 0 && number < self.writing.number)
            || (self.is_writing(number) && self.writing.opening.is_up())
            || (self.is_in_successor(number) && self.in_successor.opening.is_up())
    }

    /// Whether the leg of this OUT channel was ever up.
    fn was_out_up(&self, number: u32) -> bool
        ensures { result ≡ seen.was_out_up self.now number }
    {
        (number > 0 && number < self.current.number)
            || (self.is_current(number) && self.current.opening.is_up())
            || (self.is_out_successor(number) && self.out_successor.opening.is_up())
    }

    pub(crate) fn was_up_by(&self, number: u32, kind: LegKind) -> bool
        ensures { result ≡ seen.was_up_by self.now number kind }
    {
        match kind {
            LegKind::ClientOut => self.was_out_up(number),
            LegKind::ClientIn => self.was_in_up(number),
            LegKind::OutServer | LegKind::InServer => false,
        }
    }

    /// The leg of an IN channel is up.
    fn up_in(&mut self, number: u32, cookie: Cookie)
        ensures { self.new ≡ seen.up_in self.old number cookie }
    {
        if self.is_writing(number) {
            self.writing.up(cookie);
        } else {
            self.in_successor.up(cookie);
        }
    }

    /// The leg of an OUT channel is up: a successor's channel stands behind the current one.
    fn up_out(&mut self, number: u32, cookie: Cookie)
        ensures { self.new ≡ seen.up_out self.old number cookie }
    {
        if self.is_current(number) {
            self.current.up(cookie);
            return;
        }
        self.out_successor.up(cookie);
        if !self.line.has_next() {
            self.line.open_next(false);
        }
    }

    pub(crate) fn up_by(&mut self, number: u32, cookie: Cookie, kind: LegKind)
        ensures { self.new ≡ seen.up_by self.old number cookie kind }
    {
        match kind {
            LegKind::ClientOut => self.up_out(number, cookie),
            LegKind::ClientIn => self.up_in(number, cookie),
            LegKind::OutServer | LegKind::InServer => {}
        }
    }

    /// CONN/A3 (MS-RPCH 3.2.2.5).
    pub(crate) fn on_conn_a3(
        &mut self,
        number: u32,
        count: Count,
        timeout: u32,
    ) -> Result<(), Refused>
        ensures { (self.new, result) ≡ seen.on_conn_a3 self.old number count timeout }
    {
        if number != 1 || !self.is_current(number) || count != Count::Zero {
            return Err(Refused::Unexpected);
        }
        self.current.timeout = Some(timeout);
        Ok(())
    }

    /// CONN/C2 (MS-RPCH 3.2.2.5).
    pub(crate) fn on_conn_c2(
        &mut self,
        number: u32,
        window: u32,
        timeout: u32,
    ) -> Result<(), Refused>
        ensures { (self.new, result) ≡ seen.on_conn_c2 self.old number window timeout }
    {
        if number != 1 || !self.is_current(number) {
            return Err(Refused::Unexpected);
        }
        if !self.is_opening() || self.current.timeout.is_none() {
            return Err(Refused::Unexpected);
        }
        self.phase = Phase::Open;
        self.writing.tell(window, timeout);
        Ok(())
    }
}

/// The pipe on which packets come.
pub(crate) fn pipe_by(kind: LegKind) -> Option<Pipe>
    ensures { result ≡ pipe_by kind }
{
    match kind {
        LegKind::ClientOut => Some(Pipe::CoD),
        LegKind::OutServer | LegKind::ClientIn | LegKind::InServer => None,
    }
}

/// What a response is to a client (MS-RPCH 2.1.2).
pub(crate) fn head_by(kind: LegKind, text: &[u8]) -> Result<HeadTaken, HeadRefused>
    requires { length text.now ≤ greatest_head }
    ensures { result ≡ head_by kind (response_verdict text.now) }
{
    match judge_response(text) {
        Err(fault) => Err(HeadRefused::Response(fault)),
        Ok(response) => match kind {
            LegKind::ClientOut if response.status == SUCCESS => Ok(HeadTaken {
                behind: Behind::Frames,
                length: response.length,
            }),
            _ => Err(HeadRefused::Status(response.status)),
        },
    }
}
