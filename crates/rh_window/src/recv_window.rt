//! The window of the side that receives.

ghost use Rattle.std.specs.Prelude.{◌≡◌, ◌+◌, ◌-◌, ◌≤◌, Some};
ghost use Rattle.rh_window.specs.Sides.{IsWindow, IsReceiver};
ghost use Rattle.rh_window.specs.Receiving.{opened, shut, after_tell, admit_verdict, after_admit, after_release, due, after_told};

use crate::fault::WindowExceeded;
use crate::range::LEAST_WINDOW;
use std::marker::Model;

/// An acknowledgement of the bytes that came on a channel (MS-RPCH 2.2.3.5).
#[derive(Clone, Copy, Debug, PartialEq, Eq)]
pub struct Ack {
    /// The bytes of RPC PDUs that were received.
    pub received: u32,
    /// The bytes that the receiver has room for from there.
    pub available: u32,
}

/// How many bytes of RPC PDUs came on a channel, how many of them were passed on, and up to where
/// the sender was told that it may send.
///
/// What is held, received and not released, is never more than was advertised. RTS PDUs don't
/// count (MS-RPCH 3.2).
#[derive(Clone, Copy, Debug, PartialEq, Eq)]
pub struct RecvWindow {
    received: u32,
    released: u32,
    told: u32,
    size: u32,
}

impl Model for RecvWindow {
    ghost use Rattle.rh_window.specs.Sides.{Receiver, IsReceiver};

    ghost Value = { Receiver };

    ghost view = { λ w. record {
      received = w.received;
      released = w.released;
      told = w.told;
      size = w.size;
    } };

    ghost invariant = { λ w. IsReceiver (record {
      received = w.received;
      released = w.released;
      told = w.told;
      size = w.size;
    }) };

    ghost inverse = { λ r. record {
      received = r.received;
      released = r.released;
      told = r.told;
      size = r.size;
    } };
}

impl RecvWindow {
    /// A window of `size` bytes, from `LEAST_WINDOW` to `GREATEST_WINDOW`, that the sender is told.
    pub fn new(size: u32) -> RecvWindow
        requires { IsWindow size }
        ensures new { result ≡ opened size }
        ensures side { IsReceiver result }
    {
        RecvWindow {
            received: 0,
            released: 0,
            told: size,
            size,
        }
    }

    /// A window of `size` bytes, from `LEAST_WINDOW` to `GREATEST_WINDOW`, that the sender isn't
    /// told yet. Until `tell` no PDU may come.
    pub fn shut(size: u32) -> RecvWindow
        requires { IsWindow size }
        ensures new { result ≡ shut size }
        ensures side { IsReceiver result }
    {
        RecvWindow {
            received: 0,
            released: 0,
            told: 0,
            size,
        }
    }

    /// How many bytes are held: received and not released. They are within what the sender was
    /// told, and so within the window that was advertised.
    pub fn held(&self) -> u32
        ensures bytes { self.now.released + result ≡ self.now.received }
        ensures told { self.now.released + result ≤ self.now.told }
        ensures advertised { result ≤ self.now.size }
        ensures side { IsReceiver self.now }
    {
        self.received - self.released
    }

    /// The acknowledgement that is due: it tells the sender at least half the window more than it
    /// was told, or less where what is left to it has no room for the longest RPC PDU (profile).
    ///
    /// `None` where that isn't so, while the window is shut, and where the edge would pass 32 bits.
    pub fn due(&self) -> Option<Ack>
        ensures ack { result ≡ due self.now }
        ensures side { IsReceiver self.now }
    {
        if self.told == 0 {
            return None;
        }
        let edge = self.released.checked_add(self.size)?;
        let more = edge - self.told;
        let left = self.told - self.received;
        if more == 0 || (2 * more < self.size && left >= LEAST_WINDOW) {
            return None;
        }
        Some(Ack {
            received: self.received,
            available: edge - self.received,
        })
    }

    /// Opens a window that is shut: the sender is told its size.
    pub fn tell(&mut self)
        requires { self.old.told ≡ 0 }
        ensures new { self.new ≡ after_tell self.old }
        ensures side { IsReceiver self.new }
    {
        self.told = self.size;
    }

    /// Counts an RPC PDU of `len` bytes as received.
    ///
    /// Fails exactly where it ends behind what the sender was told, and names both. Nothing has
    /// changed then.
    pub fn admit(&mut self, len: u16) -> Result<(), WindowExceeded>
        ensures verdict { result ≡ admit_verdict self.old len }
        ensures new { self.new ≡ after_admit self.old len }
        ensures side { IsReceiver self.new }
    {
        let reached = u64::from(self.received) + u64::from(len);
        let edge = u64::from(self.told);
        if reached > edge {
            return Err(WindowExceeded { reached, edge });
        }
        self.received += u32::from(len);
        Ok(())
    }

    /// Counts an RPC PDU of `len` bytes, which is held, as passed on: there is room again.
    pub fn release(&mut self, len: u16)
        requires { self.old.released + len ≤ self.old.received }
        ensures new { self.new ≡ after_release self.old len }
        ensures side { IsReceiver self.new }
    {
        self.released += u32::from(len);
    }

    /// Records that the acknowledgement that is due goes to the sender.
    pub fn told(&mut self, ack: &Ack)
        requires { due self.old ≡ Some ack.now }
        ensures new { self.new ≡ after_told self.old ack.now }
        ensures side { IsReceiver self.new }
    {
        self.told = ack.received + ack.available;
    }
}
