//! The receiver's side of a line: the channel from which is taken, and its successor.

ghost use Rattle.std.specs.Prelude.{◌≡◌, [], IfOk, true, false, Some};
ghost use Rattle.rh_pdu.specs.Frames.{IsPdu};
ghost use Rattle.rh_window.specs.Sides.{IsWindow};
ghost use Rattle.rh_line.specs.Queue.{front_length, put_first};

use crate::channel::Channel;
use crate::line_fault::LineFault;
use crate::line_take::LineTake;
use crate::which::Which;
use rh_pdu::header::GREATEST_FRAG;
use rh_window::{Ack, RecvWindow};
use std::alloc::{AllocError, Global};
use std::marker::Model;
use std::mem;

/// The PDUs that came on the channels of a line and were not taken, in order.
///
/// PDUs are taken from the current channel. A successor, the next channel, becomes current at once
/// when the current one is finished and empty; until then its PDUs are held. Each channel has a
/// window of the same size, and what is held of it is what its window counts as received and not
/// released. Only `new` takes memory: room for two windows.
#[derive(Drop)]
pub struct RecvLine {
    size: u32,
    current: Channel,
    finished: bool,
    was_ended: bool,
    has_next: bool,
    next: Channel,
}

impl Model for RecvLine {
    ghost use Rattle.rh_line.specs.Lines.{Line, IsLine, line_of};

    ghost Value = { Line };

    ghost view = { λ a. line_of a.size a.current a.finished a.was_ended a.has_next a.next };

    ghost invariant = { λ a.
        IsLine (line_of a.size a.current a.finished a.was_ended a.has_next a.next) };
}

impl RecvLine {
    ghost use Rattle.rh_line.specs.Lines.{IsLine, IsThere, channel_of, first_line, admit_verdict, after_admit, after_end, after_finish, after_open_next, after_tell, after_told, after_take, due, is_empty, is_ended, moved_on, take_answer};

    /// A line with one channel, whose window of `size` bytes is told: `LEAST_WINDOW` to
    /// `GREATEST_WINDOW` of rh_window.
    pub fn new(alloc: Global, size: u32) -> Result<RecvLine, AllocError>
        requires { IsWindow size }
        ensures { IfOk result (λ line. line ≡ first_line size) }
    {
        let mut current = Channel::new(alloc, size)?;
        let next = Channel::new(alloc, size)?;
        current.renew(RecvWindow::new(size));
        Ok(RecvLine {
            size,
            current,
            finished: false,
            was_ended: false,
            has_next: false,
            next,
        })
    }

    /// Puts a PDU behind those that came on a channel.
    ///
    /// Fails with `Over` exactly where END came on that channel, and else exactly where the window
    /// does. Nothing has changed then.
    pub fn admit(&mut self, channel: Which, pdu: &[u8]) -> Result<(), LineFault>
        requires there { IsThere self.old channel }
        requires pdu { IsPdu pdu.now }
        ensures verdict { result ≡ admit_verdict self.old channel pdu.now }
        ensures new { self.new ≡ after_admit self.old channel pdu.now }
        ensures sound { IsLine self.new }
    {
        match channel {
            Which::Current => self.current.admit(pdu),
            Which::Next => self.next.admit(pdu),
        }
    }

    /// Records that END came on a channel: no PDU is admitted there any more. A second one changes
    /// nothing.
    pub fn end(&mut self, channel: Which)
        requires { IsThere self.old channel }
        ensures new { self.new ≡ after_end self.old channel }
        ensures sound { IsLine self.new }
    {
        match channel {
            Which::Current => self.current.end(),
            Which::Next => self.next.end(),
        }
    }

    /// Whether END came on a channel.
    pub fn is_over(&self, channel: Which) -> bool
        requires { IsThere self.now channel }
        ensures over { result ≡ (channel_of self.now channel).ended }
        ensures sound { IsLine self.now }
    {
        match channel {
            Which::Current => self.current.is_ended(),
            Which::Next => self.next.is_ended(),
        }
    }

    /// Whether END came on the current channel, or on one that was current before.
    pub fn is_ended(&self) -> bool
        ensures ended { result ≡ is_ended self.now }
        ensures sound { IsLine self.now }
    {
        self.was_ended || self.current.is_ended()
    }

    /// Whether no PDU of a channel is held.
    pub fn is_empty(&self, channel: Which) -> bool
        requires { IsThere self.now channel }
        ensures empty { result ≡ is_empty (channel_of self.now channel).pdus }
        ensures sound { IsLine self.now }
    {
        match channel {
            Which::Current => self.current.is_empty(),
            Which::Next => self.next.is_empty(),
        }
    }

    /// Finishes the current channel, which has a successor: that becomes current, at once or when
    /// the last PDU is taken. Where the current channel is finished already, nothing changes.
    pub fn finish(&mut self)
        requires { self.old.has_next ≡ true }
        ensures new { self.new ≡ after_finish self.old }
        ensures sound { IsLine self.new }
    {
        if self.current.front().is_some() {
            self.finished = true;
        } else {
            self.move_on();
        }
    }

    /// Puts the next channel, which is there, into the place of the current one, which is empty.
    fn move_on(&mut self)
        requires next { self.old.has_next ≡ true }
        requires empty { self.old.current.pdus ≡ [] }
        ensures new { self.new ≡ moved_on self.old }
        ensures sound { IsLine self.new }
    {
        self.was_ended = self.was_ended || self.current.is_ended();
        mem::swap(&mut self.current, &mut self.next);
        self.next.renew(RecvWindow::shut(self.size));
        self.finished = false;
        self.has_next = false;
    }

    /// Opens a successor of the current channel, on which nothing came; its window is shut, or
    /// told.
    pub fn open_next(&mut self, shut: bool)
        requires { self.old.has_next ≡ false }
        ensures new { self.new ≡ after_open_next self.old shut }
        ensures sound { IsLine self.new }
    {
        if !shut {
            self.next.renew(RecvWindow::new(self.size));
        }
        self.has_next = true;
    }

    /// Whether there is a next channel.
    pub fn has_next(&self) -> bool
        ensures next { result ≡ self.now.has_next }
        ensures sound { IsLine self.now }
    {
        self.has_next
    }

    /// Opens the window of a channel, which is shut.
    pub fn tell(&mut self, channel: Which)
        requires there { IsThere self.old channel }
        requires shut { (channel_of self.old channel).window.told ≡ 0 }
        ensures new { self.new ≡ after_tell self.old channel }
        ensures sound { IsLine self.new }
    {
        match channel {
            Which::Current => self.current.tell(),
            Which::Next => self.next.tell(),
        }
    }

    /// The acknowledgement that is due on a channel, as its window tells.
    pub fn due(&self, channel: Which) -> Option<Ack>
        requires { IsThere self.now channel }
        ensures ack { result ≡ due self.now channel }
        ensures sound { IsLine self.now }
    {
        match channel {
            Which::Current => self.current.due(),
            Which::Next => self.next.due(),
        }
    }

    /// Records that the acknowledgement that is due on a channel goes to the sender.
    pub fn told(&mut self, channel: Which, ack: &Ack)
        requires there { IsThere self.old channel }
        requires due { due self.old channel ≡ Some ack.now }
        ensures new { self.new ≡ after_told self.old channel ack.now }
        ensures sound { IsLine self.new }
    {
        match channel {
            Which::Current => self.current.told(ack),
            Which::Next => self.next.told(ack),
        }
    }

    /// The length of the first PDU of the current channel, 16 to 8,192 bytes. `None` exactly where
    /// none is there.
    pub fn front(&self) -> Option<u16>
        ensures len { result ≡ front_length self.now.current.pdus }
        ensures sound { IsLine self.now }
    {
        self.current.front()
    }

    /// Takes the first PDU of the current channel and releases it, and puts it at the front of the
    /// room, which stays behind it.
    ///
    /// Answers `Ended` exactly where none is there and END came on the current channel or on one
    /// that was current before. Behind the last PDU of a finished channel the next one is current.
    pub fn take(&mut self, room: &mut [u8; GREATEST_FRAG]) -> LineTake
        ensures answer { result ≡ take_answer self.old }
        ensures room { room.new ≡ put_first self.old.current.pdus room.old }
        ensures new { self.new ≡ after_take self.old }
        ensures sound { IsLine self.new }
    {
        let Some(len) = self.current.take(room) else {
            return if self.is_ended() {
                LineTake::Ended
            } else {
                LineTake::Empty
            };
        };
        if self.finished && self.current.front().is_none() {
            self.finished = false;
            self.move_on();
        }
        LineTake::Pdu(len)
    }
}
