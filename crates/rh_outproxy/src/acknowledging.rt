//! RPC PDUs from the server, and the windows on both legs (MS-RPCH 3.2).

use crate::rows::{Row, same_cookie};
use crate::state::OutProxyRole;
use rh_line::{LineFault, Which};
use rh_rts::{Cookie, TO_CLIENT, TO_OUT_PROXY};
use rh_shell::Refused;
use rh_sig::Named;

impl OutProxyRole {
    ghost use Rattle.std.specs.Prelude.{◌≡◌};
    ghost use Rattle.rh_pdu.specs.Frames.{IsPdu};
    ghost use Rattle.rh_outproxy.specs.Acknowledging as seen;

    /// An RPC PDU from the server is held, where its window allows it.
    pub(crate) fn on_pdu(&mut self, pdu: &[u8]) -> Row
        requires { IsPdu pdu.now }
        ensures { (self.new, result) ≡ seen.on_pdu self.old pdu.now }
    {
        if !self.takes_pdus() {
            return Err(Refused::Unexpected);
        }
        match self.line.admit(Which::Current, pdu) {
            Ok(()) => Ok(()),
            Err(LineFault::Window(exceeded)) => Err(Refused::Window(exceeded)),
            Err(LineFault::Over) => Err(Refused::Unexpected),
        }
    }

    /// AckTo 3 is applied to the window towards the client; AckTo 0 is forwarded.
    pub(crate) fn on_ack_to(&mut self, to: u32, received: u32, available: u32, of: Cookie) -> Row
        ensures { (self.new, result) ≡ seen.on_ack_to self.old to received available of }
    {
        if to == TO_OUT_PROXY {
            self.on_ack(received, available, of)
        } else {
            self.pass_on(to, Named::AckTo(TO_CLIENT, received, available, of))
        }
    }

    /// AckTo 3, whose cookie is to be this channel's.
    fn on_ack(&mut self, received: u32, available: u32, of: Cookie) -> Row
        ensures { (self.new, result) ≡ seen.on_ack self.old received available of }
    {
        let Some(cookie) = self.joined() else {
            return Err(Refused::Unexpected);
        };
        if !same_cookie(cookie, of) {
            return Err(Refused::Cookie {
                expected: cookie,
                got: of,
            });
        }
        match self.window.acked(received, available) {
            Ok(()) => Ok(()),
            Err(bad) => Err(Refused::OutOfRange {
                command: bad.command,
                value: bad.value,
            }),
        }
    }
}
