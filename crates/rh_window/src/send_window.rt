//! The window of the side that sends.

ghost use Rattle.std.specs.Prelude.{◌≡◌, IsTrue};
ghost use Rattle.rh_window.specs.Sides.{IsSender};
ghost use Rattle.rh_window.specs.Sending.{unsent, may_send, after_sent, ack_verdict, after_acked};

use crate::fault::{BadAck, FLOW_CONTROL_ACK};
use crate::range::GREATEST_WINDOW;
use std::marker::Model;

/// How many bytes of RPC PDUs were sent on a channel, and up to where its receiver has room for
/// them.
///
/// RTS PDUs don't count (MS-RPCH 3.2).
#[derive(Clone, Copy, Debug, PartialEq, Eq)]
pub struct SendWindow {
    sent: u64,
    edge: u64,
}

impl Model for SendWindow {
    ghost use Rattle.rh_window.specs.Sides.{Sender, IsSender};

    ghost Value = { Sender };

    ghost view = { λ w. record { sent = w.sent; edge = w.edge } };

    ghost invariant = { λ w. IsSender (record { sent = w.sent; edge = w.edge }) };

    ghost inverse = { λ s. record { sent = s.sent; edge = s.edge } };
}

impl SendWindow {
    /// A window of which nothing was sent. The edge, in bytes, is the size of the receiver's
    /// window, or 0 as long as that isn't known.
    pub fn new(edge: u32) -> SendWindow
        ensures new { result ≡ unsent edge }
        ensures side { IsSender result }
    {
        SendWindow {
            sent: 0,
            edge: u64::from(edge),
        }
    }

    /// Whether an RPC PDU of `len` bytes may be sent: it ends at the edge or before it.
    pub fn may_send(&self, len: u16) -> bool
        ensures room { result ≡ may_send self.now len }
        ensures side { IsSender self.now }
    {
        u64::from(len) <= self.edge - self.sent
    }

    /// Counts an RPC PDU of `len` bytes as sent.
    pub fn sent(&mut self, len: u16)
        requires { IsTrue (may_send self.old len) }
        ensures new { self.new ≡ after_sent self.old len }
        ensures side { IsSender self.new }
    {
        self.sent += u64::from(len);
    }

    /// Takes an acknowledgement: the bytes that the receiver had received, and those that it had
    /// room for from there. It moves the edge to where the room ends, and never back.
    ///
    /// Fails where more is acknowledged than was sent, or else where the window is above
    /// `GREATEST_WINDOW`. Nothing has changed then.
    pub fn acked(&mut self, received: u32, available: u32) -> Result<(), BadAck>
        ensures verdict { result ≡ ack_verdict self.old received available }
        ensures new { self.new ≡ after_acked self.old received available }
        ensures side { IsSender self.new }
    {
        if u64::from(received) > self.sent {
            return Err(BadAck {
                command: FLOW_CONTROL_ACK,
                value: received,
            });
        }
        if available > GREATEST_WINDOW {
            return Err(BadAck {
                command: FLOW_CONTROL_ACK,
                value: available,
            });
        }
        self.edge = self.edge.max(u64::from(received) + u64::from(available));
        Ok(())
    }
}
