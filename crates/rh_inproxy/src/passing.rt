//! RPC PDUs on their way from ci to is.

use crate::row::Row;
use crate::state::{InProxyRole, follow};
use rh_line::{LineFault, Which};
use rh_shell::{Begun, Refused};

impl InProxyRole {
    ghost use Rattle.std.specs.Prelude.{◌≡◌, []};
    ghost use Rattle.rh_pdu.specs.Frames.{IsPdu};
    ghost use Rattle.rh_line.specs.Lines.{IsThere};
    ghost use Rattle.rh_shell.specs.Rules.{put_into};
    ghost use Rattle.rh_inproxy.specs.Answers.{is_some};
    ghost use Rattle.rh_inproxy.specs.Passing as seen;

    pub(crate) fn on_pdu(&mut self, which: Which, pdu: &[u8]) -> Row
        requires there { IsThere self.old.line which }
        requires pdu { IsPdu pdu.now }
        ensures { (self.new, result) ≡ seen.on_pdu self.old which pdu.now }
    {
        if self.has_a5(which) || self.line.is_ended() {
            return Err(Refused::Unexpected);
        }
        match self.line.admit(which, pdu) {
            Ok(()) => Ok(()),
            Err(LineFault::Window(exceeded)) => Err(Refused::Window(exceeded)),
            Err(LineFault::Over) => Err(Refused::Unexpected),
        }
    }

    /// Puts the front PDU, which is released, where the window of the server allows it.
    pub(crate) fn put_pdu(&mut self, begun: &mut Begun) -> bool
        requires { begun.old ≡ [] }
        ensures put { (self.new, begun.new) ≡ put_into self.old (seen.put_pdu self.old) }
        ensures told { result ≡ is_some (seen.put_pdu self.old) }
    {
        let Some(len) = self.line.front() else {
            return false;
        };
        if !self.window.may_send(len) {
            return false;
        }
        self.window.sent(len);
        begun.begin_taken(&mut self.line);
        follow(self.line.has_next(), &mut self.current, &mut self.successor);
        true
    }
}
