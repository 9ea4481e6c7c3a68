//! A channel at its receiver: the PDUs that came on it, and its window.

ghost use Rattle.std.specs.Prelude.{◌≡◌, [], IfOk, IfSome, IfNone, length, take, drop, slice_get, Some};
ghost use Rattle.rh_pdu.specs.Frames.{IsPdu};
ghost use Rattle.rh_window.specs.Sides.{IsWindow};
ghost use Rattle.rh_line.specs.Queue.{front_length, put_first};

use crate::line_fault::LineFault;
use crate::pdu_ring::PduRing;
use rh_pdu::header::GREATEST_FRAG;
use rh_window::{Ack, RecvWindow};
use std::alloc::{AllocError, Global};
use std::marker::Model;

/// The PDUs that were admitted on a channel and not taken, whether END came on it, and its window.
#[derive(Drop)]
pub(crate) struct Channel {
    pdus: PduRing,
    ended: bool,
    window: RecvWindow,
}

impl Model for Channel {
    ghost use Rattle.std.specs.Prelude.{◌≡◌};
    ghost use Rattle.rh_line.specs.Lines.{Incoming, IsIncoming, incoming};

    ghost Value = { Incoming };

    ghost view = { λ a. incoming a.pdus.pdus a.ended a.window };

    ghost invariant = { λ a.
        IsIncoming (incoming a.pdus.pdus a.ended a.window) × (a.pdus.room ≡ a.window.size) };
}

impl Channel {
    ghost use Rattle.rh_window.specs.Receiving.{after_tell, after_told, due};
    ghost use Rattle.rh_line.specs.Lines.{IsIncoming, admitted, channel_verdict, fresh, is_empty, released, unopened, with_end, with_window};

    /// A channel on which nothing came and whose window is shut, with room for `size` bytes.
    pub(crate) fn new(alloc: Global, size: u32) -> Result<Channel, AllocError>
        requires { IsWindow size }
        ensures { IfOk result (λ channel. channel ≡ unopened size) }
    {
        let pdus = PduRing::with_capacity(alloc, size as usize)?;
        Ok(Channel {
            pdus,
            ended: false,
            window: RecvWindow::shut(size),
        })
    }

    /// Forgets what came, and takes a window of the same size on which nothing came. No PDU may be
    /// there.
    pub(crate) fn renew(&mut self, window: RecvWindow)
        requires empty { self.old.pdus ≡ [] }
        requires size { window.size ≡ self.old.window.size }
        requires unused { (window.received ≡ 0) × (window.released ≡ 0) }
        ensures { self.new ≡ fresh window }
    {
        self.ended = false;
        self.window = window;
    }

    /// Puts a PDU behind the others, where END didn't come and the window has room for it.
    pub(crate) fn admit(&mut self, pdu: &[u8]) -> Result<(), LineFault>
        requires { IsPdu pdu.now }
        ensures verdict { result ≡ channel_verdict self.old pdu.now }
        ensures new { self.new ≡ admitted self.old pdu.now }
        ensures sound { IsIncoming self.new }
    {
        if self.ended {
            return Err(LineFault::Over);
        }
        if let Err(exceeded) = self.window.admit(pdu.len() as u16) {
            return Err(LineFault::Window(exceeded));
        }
        self.pdus.push(pdu);
        Ok(())
    }

    /// Records that END came.
    pub(crate) fn end(&mut self)
        ensures new { self.new ≡ with_end self.old }
        ensures sound { IsIncoming self.new }
    {
        self.ended = true;
    }

    /// Whether END came.
    pub(crate) fn is_ended(&self) -> bool
        ensures { result ≡ self.now.ended }
    {
        self.ended
    }

    /// Opens the window, which is shut.
    pub(crate) fn tell(&mut self)
        requires { self.old.window.told ≡ 0 }
        ensures new { self.new ≡ with_window self.old (after_tell self.old.window) }
        ensures sound { IsIncoming self.new }
    {
        self.window.tell();
    }

    /// The acknowledgement that is due.
    pub(crate) fn due(&self) -> Option<Ack>
        ensures { result ≡ due self.now.window }
    {
        self.window.due()
    }

    /// Records that the acknowledgement that is due goes to the sender.
    pub(crate) fn told(&mut self, ack: &Ack)
        requires { due self.old.window ≡ Some ack.now }
        ensures new { self.new ≡ with_window self.old (after_told self.old.window ack.now) }
        ensures sound { IsIncoming self.new }
    {
        self.window.told(ack);
    }

    /// The length of the first PDU; `None` exactly where there is none.
    pub(crate) fn front(&self) -> Option<u16>
        ensures { result ≡ front_length self.now.pdus }
    {
        self.pdus.front()
    }

    /// Whether no PDU is held.
    pub(crate) fn is_empty(&self) -> bool
        ensures { result ≡ is_empty self.now.pdus }
    {
        self.pdus.front().is_none()
    }

    /// Takes the first PDU out and releases it to the window, puts it at the front of the room and
    /// answers its length. The room behind it stays. `None` exactly where there is no PDU.
    pub(crate) fn take(&mut self, room: &mut [u8; GREATEST_FRAG]) -> Option<u16>
        ensures len { result ≡ front_length self.old.pdus }
        ensures room { room.new ≡ put_first self.old.pdus room.old }
        ensures new { self.new ≡ released self.old.pdus self.old }
        ensures sound { IsIncoming self.new }
    {
        let len = self.pdus.pop(room)?;
        self.window.release(len);
        Some(len)
    }
}
