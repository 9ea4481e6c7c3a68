//! The message of which some bytes were drawn, and some not.

ghost use Rattle.std.specs.Prelude.{◌≡◌};
ghost use Rattle.rh_shell.specs.NearEnds.{is_empty};

use rh_line::{LineTake, RecvLine, SendLine};
use rh_pdu::header::GREATEST_FRAG;
use rh_sig::{Named, write_named};
use std::marker::Model;

/// The most bytes of a message that is put, which has room for every PDU.
pub const GREATEST_MESSAGE: usize = GREATEST_FRAG;

/// The bytes still to be drawn of a message, in an array of its own: 8,192 at most.
#[derive(Drop)]
pub struct Begun {
    room: [u8; GREATEST_MESSAGE],
    from: usize,
    to: usize,
}

impl Model for Begun {
    ghost use Rattle.std.specs.Prelude.{List, ℕ, take, drop, ◌≤◌};
    ghost use Rattle.rh_shell.specs.declared.begun.TheConstants.{GREATEST_MESSAGE};

    ghost Value = { List ℕ };

    ghost view = { λ a. drop a.from (take a.to a.room) };

    ghost invariant = { λ a. (a.from ≤ a.to) × (a.to ≤ GREATEST_MESSAGE) };
}

impl Begun {
    ghost use Rattle.std.specs.Prelude.{◌≡◌, ◌≤◌, ◌++◌, [], length, take, drop, min};
    ghost use Rattle.rh_sig.specs.Naming.{named_bytes};
    ghost use Rattle.rh_sig.specs.Values.{MayBeWritten};
    ghost use Rattle.rh_line.specs.Lines.{after_take};
    ghost use Rattle.rh_line.specs.Queue.{behind};
    ghost use Rattle.rh_shell.specs.NearEnds.{first_of};

    /// No message.
    pub fn new() -> Begun
        ensures { result ≡ [] }
    {
        Begun {
            room: [0; GREATEST_MESSAGE],
            from: 0,
            to: 0,
        }
    }

    /// Whether the message is drawn to its end.
    pub fn is_empty(&self) -> bool
        ensures { result ≡ is_empty self.now }
    {
        is_empty(self.as_slice())
    }

    /// The bytes still to be drawn.
    fn as_slice(&self) -> &[u8]
        ensures { result.now ≡ self.now }
    {
        &self.room[self.from..self.to]
    }

    /// Draws bytes into the front of a room, as many as it has or as are left, and answers how
    /// many.
    pub fn draw(&mut self, room: &mut [u8]) -> usize
        ensures count { result ≡ min (length room.old) (length self.old) }
        ensures room { room.new ≡ take result self.old ++ drop result room.old }
        ensures rest { self.new ≡ drop result self.old }
    {
        let count = room.len().min(self.to - self.from);
        room[..count].copy_from_slice(&self.as_slice()[..count]);
        self.from += count;
        count
    }

    /// Lets nothing be left to draw.
    pub fn clear(&mut self)
        ensures { self.new ≡ [] }
    {
        self.from = 0;
        self.to = 0;
    }

    /// Begins these bytes, of which there are 8,192 at most, in the place of what was begun.
    pub fn begin(&mut self, bytes: &[u8])
        requires { length bytes.now ≤ GREATEST_MESSAGE }
        ensures { self.new ≡ bytes.now }
    {
        self.room[..bytes.len()].copy_from_slice(bytes);
        self.from = 0;
        self.to = bytes.len();
    }

    /// Begins the first PDU of a line's current channel, which is taken from it; nothing where none
    /// is there.
    pub fn begin_taken(&mut self, line: &mut RecvLine)
        ensures begun { self.new ≡ first_of line.old.current.pdus }
        ensures line { line.new ≡ after_take line.old }
    {
        self.from = 0;
        self.to = match line.take(&mut self.room) {
            LineTake::Pdu(len) => usize::from(len),
            LineTake::Empty | LineTake::Ended => 0,
        };
    }

    /// Begins the first PDU of a queue, which is taken from it; nothing where none is there.
    pub fn begin_popped(&mut self, queue: &mut SendLine)
        ensures begun { self.new ≡ first_of queue.old }
        ensures queue { queue.new ≡ behind queue.old }
    {
        self.from = 0;
        self.to = match queue.pop(&mut self.room) {
            Some(len) => usize::from(len),
            None => 0,
        };
    }

    /// Begins a packet in the place of what was begun.
    #[tactic(auto, unfolding(rh_sig::specs::Naming::named_bytes))]
    pub fn begin_packet(&mut self, packet: &Named)
        requires { MayBeWritten packet.now }
        ensures { self.new ≡ named_bytes packet.now }
    {
        self.from = 0;
        match write_named(packet, &mut self.room) {
            Ok(len) => self.to = len,
            Err(_) => unreachable!(),
        }
    }
}

fn is_empty(bytes: &[u8]) -> bool
    ensures { result ≡ is_empty bytes.now }
{
    match bytes {
        [] => true,
        [_, ..] => false,
    }
}
