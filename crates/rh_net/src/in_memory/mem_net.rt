//! One role's hold of a board.

ghost use Rattle.std.specs.Prelude.{◌≡◌, ◌+◌, ◌<◌, ◌≤◌, [], None, Some, Ok, true, length, reverse};
ghost use Rattle.std.specs.Prelude.{IfSome, IsOk, IfOk, OnOk, OnErr, is_err};
ghost use Rattle.std.specs.Io.{ReadsAtMost};
ghost use Rattle.rh_io.specs.Counts.{Rose};
ghost use Rattle.rh_net.specs.Calls.{AreLater, CountsFault, GivesLeg, IsUnused};
ghost use Rattle.rh_net.specs.Counts.{one_more};
ghost use Rattle.rh_net.specs.Failing.{fails_next, fails_at};
ghost use Rattle.rh_net.specs.Memory.Given.{AreHalves, TakesNext, TakesFails, party_of};

use crate::in_memory::board::Board;
use crate::in_memory::leg_half::LegHalf;
use crate::in_memory::two_ways::{Half, Party};
use crate::{
    Address, FailingCalls, MemWay, Net, NetCall, NetCounts, NetFailed, Ready, ShutSink, ShutSource,
};
use rh_io::{NoMemory, Sink, SinkFailed, Source, SourceFailed};
use std::alloc::Global;
use std::sync::{Arc, Wait};
use std::thread::yield_now;
use std::time::Clock;

/// The numbers of the reads and of the writes of one leg that are to fail, each counted from 1.
#[derive(Drop)]
pub struct LegFails {
    /// Of its reads.
    pub reads: Vec<u64>,
    /// Of its writes.
    pub writes: Vec<u64>,
}

/// The source of a leg in memory. It waits for bytes, and tells none. To drop it shuts it.
#[derive(Drop)]
pub struct PipeSource<R: Wait + Copy> {
    half: LegHalf<R>,
    fails: FailingCalls,
    faults: u64,
    ends: u64,
}

impl<R: Wait + Copy> Source for PipeSource<R> {
    ghost left = { λ _. None };

    ghost taken = { λ _. None };

    ghost faults = { λ s. s.faults };

    ghost ends = { λ s. s.ends };

    fn read(&mut self, room: &mut [u8]) -> Result<usize, SourceFailed>
        ensures bound { ReadsAtMost result room.new }
        ensures at_end { IfOk result (λ n. n ≡ 0 → 0 < length room.old
            → Rose self.old.ends self.new.ends) }
        ensures no_end { IfOk result (λ n. 0 < n → self.new.ends ≡ self.old.ends) }
        ensures failed { OnErr result (Rose self.old.faults self.new.faults) }
        ensures no_failure { OnOk result (self.new.faults ≡ self.old.faults) }
        ensures no_end_at_failure { OnErr result (self.new.ends ≡ self.old.ends) }
        ensures no_room { length room.old ≡ 0 → (result ≡ Ok 0)
            × (self.new.faults ≡ self.old.faults) × (self.new.ends ≡ self.old.ends) }
        ensures faults { self.old.faults ≤ self.new.faults }
        ensures ends { self.old.ends ≤ self.new.ends }
        ensures planned { is_err result ≡ fails_at (length room.old)
            (fails_next self.old.fails.numbers.items self.old.fails.calls) }
        ensures next { (self.new.fails.calls ≡ one_more self.old.fails.calls)
            × (self.new.fails.numbers ≡ self.old.fails.numbers)
            × (self.new.half ≡ self.old.half) }
    {
        let is_to_fail = self.fails.next_fails();
        if room.is_empty() {
            return Ok(0);
        }
        if is_to_fail {
            self.faults = self.faults.saturating_add(1);
            return Err(SourceFailed);
        }
        match self.half.read(room) {
            Some(count) => Ok(count),
            None => {
                self.ends = self.ends.saturating_add(1);
                Ok(0)
            }
        }
    }
}

/// A read that is to fail doesn't wait.
impl<R: Wait + Clock + Copy> Ready for PipeSource<R> {
    fn ready(&mut self, most: u32) -> bool {
        self.fails.is_next() || self.half.ready(most)
    }
}

impl<R: Wait + Copy> ShutSource for PipeSource<R> {
    fn shut(&mut self) {
        self.half.end();
    }
}

/// The sink of a leg in memory. It waits for room, fails once its reader is gone, and tells no
/// bytes. To drop it shuts it.
#[derive(Drop)]
pub struct PipeSink<R: Wait + Copy> {
    half: LegHalf<R>,
    fails: FailingCalls,
    faults: u64,
}

impl<R: Wait + Copy> Sink for PipeSink<R> {
    ghost written = { λ _. None };

    ghost faults = { λ s. s.faults };

    fn write(&mut self, piece: &[u8]) -> Result<usize, SinkFailed>
        ensures bound { IfOk result (λ n. n ≤ length piece.now) }
        ensures some { 0 < length piece.now → IfOk result (λ n. 0 < n) }
        ensures failed { OnErr result (Rose self.old.faults self.new.faults) }
        ensures no_failure { OnOk result (self.new.faults ≡ self.old.faults) }
        ensures takes_on { IfOk result (λ n. 0 ≤ 0 + n) }
        ensures no_piece { length piece.now ≡ 0 → result ≡ Ok 0 }
        ensures faults { self.old.faults ≤ self.new.faults }
        ensures planned { fails_at (length piece.now)
            (fails_next self.old.fails.numbers.items self.old.fails.calls) ≡ true
            → is_err result ≡ true }
        ensures next { (self.new.fails.calls ≡ one_more self.old.fails.calls)
            × (self.new.fails.numbers ≡ self.old.fails.numbers)
            × (self.new.half ≡ self.old.half) }
    {
        let is_to_fail = self.fails.next_fails();
        if piece.is_empty() {
            return Ok(0);
        }
        if !is_to_fail {
            if let Some(count) = self.half.write(piece) {
                return Ok(count);
            }
        }
        self.faults = self.faults.saturating_add(1);
        Err(SinkFailed)
    }
}

impl<R: Wait + Copy> ShutSink for PipeSink<R> {
    fn shut(&mut self) {
        self.half.end();
    }
}

/// A net in memory: one role's hold of a board that several roles share.
///
/// A call to connect puts a caller on the board, and one to accept takes the first caller to the
/// address listened at; where there is none, it gives a leg whose source is at its end. It tells no
/// streams taken back.
#[derive(Drop)]
pub struct MemNet<R: Wait + Copy> {
    rt: R,
    board: Arc<Board, Global>,
    listens_at: Option<Address>,
    // Those of the next leg stand last.
    legs: Vec<LegFails>,
    fails: FailingCalls,
    counts: NetCounts,
}

impl<R: Wait + Copy> MemNet<R> {
    /// A hold of `board`.
    ///
    /// `legs` has the calls that are to fail on each leg, in the order in which this net makes
    /// them; a leg that is given where nobody called takes none of them. `fails` has the numbers of
    /// the calls of `gives` and `listen` that fail, counted from 1 over both.
    pub fn new(rt: R, board: Arc<Board, Global>, legs: Vec<LegFails>, fails: Vec<u64>) -> MemNet<R>
        ensures legs { result.legs.items ≡ reverse legs.items }
        ensures asked { (result.fails.numbers ≡ fails) × (result.fails.calls ≡ 0) }
        ensures counts { result.counts
            ≡ record { faults = 0; given = 0; leg_faults = 0; leg_ends = 0 } }
    {
        let mut legs = legs;
        legs.reverse();
        MemNet {
            rt,
            board,
            listens_at: None,
            legs,
            fails: FailingCalls::new(fails),
            counts: NetCounts::new(),
        }
    }

    /// The counts of this net.
    pub fn counts(&self) -> NetCounts
        ensures { ⟦<MemNet<R> as Net>⟧.counts self.now ≡ result }
    {
        self.counts
    }

    // Two more holds of the board, for the streams of a leg.
    fn two_holds(&self) -> Result<(Arc<Board, Global>, Arc<Board, Global>), NoMemory> {
        Ok((Arc::try_clone(&self.board)?, Arc::try_clone(&self.board)?))
    }

    // The streams of a leg that was made, with the calls on it that are to fail.
    fn made(
        &mut self,
        holds: (Arc<Board, Global>, Arc<Board, Global>),
        leg: usize,
        party: Party,
    ) -> (PipeSource<R>, PipeSink<R>)
        ensures unused { (result.0.faults ≡ 0) × (result.0.ends ≡ 0) × (result.1.faults ≡ 0) }
        ensures halves { (result.0.half.leg ≡ Some leg) × (result.1.half.leg ≡ Some leg)
            × AreHalves party result.0.half.party result.1.half.party
            result.0.half.half result.1.half.half }
        ensures fails { TakesNext self.old.legs.items self.new.legs.items
            result.0.fails.numbers result.1.fails.numbers }
        ensures asked { (result.0.fails.calls ≡ 0) × (result.1.fails.calls ≡ 0) }
        ensures same { self.new ≡ record self.old { legs = self.new.legs } }
    {
        let fails = match self.legs.pop() {
            Some(fails) => fails,
            None => self.no_fails(),
        };
        self.streams(holds, Some(leg), party, fails)
    }

    fn no_fails(&self) -> LegFails
        ensures { (result.reads.items ≡ []) × (result.writes.items ≡ []) }
    {
        let alloc = *self.legs.allocator();
        LegFails {
            reads: Vec::new(alloc),
            writes: Vec::new(alloc),
        }
    }

    fn streams(
        &self,
        holds: (Arc<Board, Global>, Arc<Board, Global>),
        leg: Option<usize>,
        party: Party,
        fails: LegFails,
    ) -> (PipeSource<R>, PipeSink<R>)
        ensures unused { (result.0.faults ≡ 0) × (result.0.ends ≡ 0) × (result.1.faults ≡ 0) }
        ensures halves { (result.0.half.leg ≡ leg) × (result.1.half.leg ≡ leg)
            × AreHalves party result.0.half.party result.1.half.party
            result.0.half.half result.1.half.half }
        ensures fails { (result.0.fails.numbers ≡ fails.reads)
            × (result.1.fails.numbers ≡ fails.writes) }
        ensures asked { (result.0.fails.calls ≡ 0) × (result.1.fails.calls ≡ 0) }
    {
        let LegFails { reads, writes } = fails;
        let source = PipeSource {
            half: LegHalf::new(self.rt, holds.0, leg, party, Half::Reading),
            fails: FailingCalls::new(reads),
            faults: 0,
            ends: 0,
        };
        let sink = PipeSink {
            half: LegHalf::new(self.rt, holds.1, leg, party, Half::Writing),
            fails: FailingCalls::new(writes),
            faults: 0,
        };
        (source, sink)
    }

    // Puts a caller on the board; `None` where it has no leg left.
    fn call(&mut self, to: &Address) -> Option<(PipeSource<R>, PipeSink<R>)>
        ensures unused { IfSome result (λ leg.
            (leg.0.faults ≡ 0) × (leg.0.ends ≡ 0) × (leg.1.faults ≡ 0)) }
        ensures halves { IfSome result (λ leg. (leg.1.half.leg ≡ leg.0.half.leg)
            × AreHalves Party.Caller leg.0.half.party leg.1.half.party
            leg.0.half.half leg.1.half.half) }
        ensures fails { IfSome result (λ leg. TakesFails leg.0.half.leg
            self.old.legs.items self.new.legs.items leg.0.fails.numbers leg.1.fails.numbers) }
        ensures asked { IfSome result
            (λ leg. (leg.0.fails.calls ≡ 0) × (leg.1.fails.calls ≡ 0)) }
        ensures same { self.new ≡ record self.old { legs = self.new.legs } }
    {
        let holds = self.two_holds().ok()?;
        let leg = self.board.call(&self.rt, to)?;
        Some(self.made(holds, leg, Party::Caller))
    }

    // Takes a caller off the board, or gives a leg that is at its end; `None` where nothing is
    // listened at.
    fn answer(&mut self) -> Option<(PipeSource<R>, PipeSink<R>)>
        ensures unused { IfSome result (λ leg.
            (leg.0.faults ≡ 0) × (leg.0.ends ≡ 0) × (leg.1.faults ≡ 0)) }
        ensures halves { IfSome result (λ leg. (leg.1.half.leg ≡ leg.0.half.leg)
            × AreHalves Party.Callee leg.0.half.party leg.1.half.party
            leg.0.half.half leg.1.half.half) }
        ensures fails { IfSome result (λ leg. TakesFails leg.0.half.leg
            self.old.legs.items self.new.legs.items leg.0.fails.numbers leg.1.fails.numbers) }
        ensures asked { IfSome result
            (λ leg. (leg.0.fails.calls ≡ 0) × (leg.1.fails.calls ≡ 0)) }
        ensures same { self.new ≡ record self.old { legs = self.new.legs } }
    {
        let at = self.listens_at?;
        let holds = self.two_holds().ok()?;
        match self.board.answer(&self.rt, &at) {
            Some(leg) => Some(self.made(holds, leg, Party::Callee)),
            None => {
                // Who accepts again and again is not to keep callers from the board.
                yield_now();
                Some(self.streams(holds, None, Party::Callee, self.no_fails()))
            }
        }
    }

    // The leg of a call; `None` where there is none.
    fn leg_for(&mut self, came: NetCall) -> Option<(PipeSource<R>, PipeSink<R>)>
        ensures unused { IfSome result (λ leg.
            (leg.0.faults ≡ 0) × (leg.0.ends ≡ 0) × (leg.1.faults ≡ 0)) }
        ensures halves { IfSome result (λ leg. (leg.1.half.leg ≡ leg.0.half.leg)
            × AreHalves (party_of came) leg.0.half.party leg.1.half.party
            leg.0.half.half leg.1.half.half) }
        ensures fails { IfSome result (λ leg. TakesFails leg.0.half.leg
            self.old.legs.items self.new.legs.items leg.0.fails.numbers leg.1.fails.numbers) }
        ensures asked { IfSome result
            (λ leg. (leg.0.fails.calls ≡ 0) × (leg.1.fails.calls ≡ 0)) }
        ensures same { self.new ≡ record self.old { legs = self.new.legs } }
    {
        match came {
            NetCall::Connect(to) => self.call(&to),
            NetCall::Accept => self.answer(),
        }
    }
}

impl<R: Wait + Copy> Net for MemNet<R> {
    type In = PipeSource<R>;

    type Out = PipeSink<R>;

    type Came = NetCall;

    type Way = MemWay;

    ghost counts = { λ n. n.counts };

    ghost backs = { λ _. None };

    fn back_in(&mut self, source: PipeSource<R>) {
        self.counts.count_source(source.faults, source.ends);
    }

    fn back_out(&mut self, sink: PipeSink<R>) {
        self.counts.count_sink(sink.faults);
    }

    fn way(&mut self) -> Result<MemWay, NetFailed>
        ensures ok { OnOk result (self.new.counts ≡ self.old.counts) }
        ensures err { OnErr result (CountsFault self.old.counts self.new.counts) }
        ensures later { AreLater self.old.counts self.new.counts }
        ensures same { IsOk result × (self.new ≡ self.old) }
    {
        Ok(MemWay)
    }

    fn gives(&mut self, came: NetCall) -> Result<(PipeSource<R>, PipeSink<R>), NetFailed>
        ensures leg { GivesLeg result (IsUnused ⟦<PipeSource<R> as Source>⟧.taken
            ⟦<PipeSource<R> as Source>⟧.faults ⟦<PipeSource<R> as Source>⟧.ends
            ⟦<PipeSink<R> as Sink>⟧.written ⟦<PipeSink<R> as Sink>⟧.faults)
            self.old.counts self.new.counts }
        ensures halves { IfOk result (λ leg. (leg.1.half.leg ≡ leg.0.half.leg)
            × AreHalves (party_of came) leg.0.half.party leg.1.half.party
            leg.0.half.half leg.1.half.half) }
        ensures leg_fails { IfOk result (λ leg. TakesFails leg.0.half.leg
            self.old.legs.items self.new.legs.items leg.0.fails.numbers leg.1.fails.numbers) }
        ensures asked { IfOk result (λ leg. (leg.0.fails.calls ≡ 0) × (leg.1.fails.calls ≡ 0)) }
        ensures planned { fails_next self.old.fails.numbers.items self.old.fails.calls ≡ true
            → is_err result ≡ true }
        ensures next { (self.new.fails.calls ≡ one_more self.old.fails.calls)
            × (self.new.fails.numbers ≡ self.old.fails.numbers)
            × (self.new.board ≡ self.old.board) × (self.new.listens_at ≡ self.old.listens_at) }
    {
        if !self.fails.next_fails() {
            if let Some(leg) = self.leg_for(came) {
                self.counts.count_given();
                return Ok(leg);
            }
        }
        self.counts.count_fault();
        Err(NetFailed)
    }

    fn listen(&mut self, at: &Address) -> Result<(), NetFailed>
        ensures ok { OnOk result (self.new.counts ≡ self.old.counts) }
        ensures err { OnErr result (CountsFault self.old.counts self.new.counts) }
        ensures later { AreLater self.old.counts self.new.counts }
        ensures listens { OnOk result (self.new.listens_at ≡ Some at.now) }
        ensures fails { is_err result
            ≡ fails_next self.old.fails.numbers.items self.old.fails.calls }
        ensures same { (self.new.board ≡ self.old.board) × (self.new.legs ≡ self.old.legs) }
    {
        if self.fails.next_fails() {
            self.counts.count_fault();
            return Err(NetFailed);
        }
        self.listens_at = Some(*at);
        Ok(())
    }
}
