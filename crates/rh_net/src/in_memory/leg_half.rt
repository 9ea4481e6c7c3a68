//! One half of a party's end of a leg.

ghost use Rattle.std.specs.Prelude.{◌≡◌, ◌<◌, ◌≤◌, length, IfSome};

use crate::in_memory::board::Board;
use crate::in_memory::lane::Lane;
use crate::in_memory::two_ways::{Half, Party};
use std::alloc::Global;
use std::sync::{Arc, Wait};
use std::time::Clock;

/// One half of a party's end of a leg. With no leg it is at its end, and nobody reads what it
/// writes. To drop it ends it.
pub(crate) struct LegHalf<R: Wait + Copy> {
    rt: R,
    board: Arc<Board, Global>,
    leg: Option<usize>,
    party: Party,
    half: Half,
}

impl<R: Wait + Copy> LegHalf<R> {
    /// A half of the end that a party has of a leg.
    pub(crate) fn new(
        rt: R,
        board: Arc<Board, Global>,
        leg: Option<usize>,
        party: Party,
        half: Half,
    ) -> LegHalf<R>
        ensures { (result.leg ≡ leg) × (result.party ≡ party) × (result.half ≡ half)
            × (result.board ≡ board) }
    {
        LegHalf {
            rt,
            board,
            leg,
            party,
            half,
        }
    }

    /// Waits for bytes, and reads them into the front of `room`; `None` at the end.
    pub(crate) fn read(&self, room: &mut [u8]) -> Option<usize>
        requires { 0 < length room.old }
        ensures { IfSome result (λ n. (0 < n) × (n ≤ length room.new)) }
    {
        self.lane().read(&self.rt, room)
    }

    /// Waits for room, and writes the front of `piece`; `None` where nobody reads it.
    pub(crate) fn write(&self, piece: &[u8]) -> Option<usize>
        requires { 0 < length piece.now }
        ensures { IfSome result (λ n. (0 < n) × (n ≤ length piece.now)) }
    {
        self.lane().write(&self.rt, piece)
    }

    /// Waits until a read won't wait, for `most` milliseconds at most. Answers whether it won't.
    pub(crate) fn ready(&self, most: u32) -> bool
    where
        R: Clock,
    {
        self.lane().ready(&self.rt, most)
    }

    /// Ends it: it reads, or writes, no further byte.
    pub(crate) fn end(&self) {
        match self.half {
            Half::Reading => self.lane().end_reader(&self.rt),
            Half::Writing => self.lane().end_writer(&self.rt),
        }
    }

    fn lane(&self) -> &Lane {
        self.board.lane(self.leg, self.party, self.half)
    }
}

impl<R: Wait + Copy> Drop for LegHalf<R> {
    fn drop(mut self) {
        self.end();
        let Self {
            rt: _,
            board,
            leg: _,
            party: _,
            half: _,
        } = self;
        drop(board);
    }
}
