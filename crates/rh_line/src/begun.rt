//! The PDU of which some bytes were drawn, and some not; and drawing bytes into a room.

ghost use Rattle.std.specs.Prelude.{◌≡◌, ◌-◌, ◌≤◌, ◌++◌, [], ◌∷◌, length, take, drop, min};
ghost use Rattle.std.specs.Bool.{OnTrue, OnFalse};
ghost use Rattle.std.specs.List.{concat};
ghost use Rattle.rh_line.specs.Queue.{untouched};

use crate::send_line::SendLine;
use rh_pdu::header::GREATEST_FRAG;
use std::marker::Model;

/// The bytes still to be drawn of a PDU, in an array of its own.
#[derive(Drop)]
pub struct BegunPdu {
    room: [u8; GREATEST_FRAG],
    from: usize,
    to: usize,
}

impl Model for BegunPdu {
    ghost use Rattle.std.specs.Prelude.{List, ℕ, take, drop, ◌≤◌};
    ghost use Rattle.rh_pdu.specs.Header.{greatest_length};

    ghost Value = { List ℕ };

    ghost view = { λ a. drop a.from (take a.to a.room) };

    ghost invariant = { λ a. (a.from ≤ a.to) × (a.to ≤ greatest_length) };
}

impl BegunPdu {
    ghost use Rattle.rh_pdu.specs.Header.{greatest_length};

    /// No PDU.
    pub fn new() -> BegunPdu
        ensures { result ≡ [] }
    {
        BegunPdu {
            room: [0; GREATEST_FRAG],
            from: 0,
            to: 0,
        }
    }

    /// How many bytes are still to be drawn: 0 to 8,192.
    pub fn len(&self) -> usize
        ensures bytes { result ≡ length self.now }
        ensures most { result ≤ greatest_length }
    {
        self.to - self.from
    }

    /// Draws bytes into the front of a room, as many as it has or as are left, and answers how
    /// many.
    fn draw(&mut self, room: &mut [u8]) -> usize
        ensures count { result ≡ min (length room.old) (length self.old) }
        ensures room { room.new ≡ take result self.old ++ drop result room.old }
        ensures left { self.new ≡ drop result self.old }
    {
        let count = room.len().min(self.to - self.from);
        room[..count].copy_from_slice(&self.room[self.from..self.from + count]);
        self.from += count;
        count
    }

    /// Begins the next PDU of a queue in the place of the one that was begun, and answers whether
    /// there was one. Where there is none, nothing is begun.
    fn begin_next(&mut self, queue: &mut SendLine) -> bool
        ensures begun { OnTrue result (queue.old ≡ self.new ∷ queue.new) }
        ensures none { OnFalse result ((queue.old ≡ []) × (queue.new ≡ []) × (self.new ≡ [])) }
    {
        let next = queue.pop(&mut self.room);
        self.from = 0;
        self.to = next.map_or(0, usize::from);
        next.is_some()
    }
}

/// Draws bytes of the PDU begun, and then of those queued, into the front of a room: as many as it
/// has, or all where there are fewer. Answers how many.
///
/// A PDU leaves the queue when its first byte is drawn.
pub fn draw(queue: &mut SendLine, begun: &mut BegunPdu, room: &mut [u8]) -> usize
    ensures count { result ≡ length (take (length room.old) (begun.old ++ concat queue.old)) }
    ensures room { room.new
        ≡ take (length room.old) (begun.old ++ concat queue.old) ++ drop result room.old }
    ensures left { begun.new ++ concat queue.new
        ≡ drop (length room.old) (begun.old ++ concat queue.old) }
    ensures queue { queue.new ≡ untouched (length room.old - length begun.old) queue.old }
{
    let mut drawn = 0;
    'pdus: loop {
        drawn += begun.draw(&mut room[drawn..]);
        if drawn == room.len() || !begun.begin_next(queue) {
            return drawn;
        }
    }
}
