//! A net in memory that gives the legs of two lists, and keeps those that are handed back.

ghost use Rattle.std.specs.Prelude.{◌≡◌, ◌+◌, ◌<◌, ◌≤◌, [], ◌∷◌, ◌++◌, None, Some, map, reverse, All, vec_len};
ghost use Rattle.std.specs.Prelude.{vec_capacity, IsOk, IfOk, OnOk, OnErr, MatchOption, MatchResult, is_err, ◌||◌, ◌==◌, true};
ghost use Rattle.std.specs.Option.{option_map};
ghost use Rattle.rh_net.specs.Backs.{no_backs, TellsAtMost, with_source, with_sink};
ghost use Rattle.rh_net.specs.Calls.{AreLater, CountsFault, GivesLeg, IsUnused};
ghost use Rattle.rh_net.specs.Calls.{sink_back, source_back};
ghost use Rattle.rh_net.specs.Counts.{one_more};
ghost use Rattle.rh_net.specs.Failing.{fails_next};
ghost use Rattle.rh_net.specs.Script.{GivesLast, GivesLastOrEnd, lacks_leg, back_source, back_sink, backs_of};
ghost use Rattle.rh_net.specs.declared.way.NetCall.TheVariants.{Connect, Accept};
ghost use Rattle.rh_io.specs.Bytes.{Stays};

use crate::address::Address;
use crate::counts::NetCounts;
use crate::failing::FailingCalls;
use crate::net::{Net, NetFailed};
use crate::ready::Ready;
use crate::shut::{ShutSink, ShutSource};
use crate::way::{MemWay, NetCall};
use rh_io::{MemSink, MemSource, NoMemory, Sink, SinkFailed, Source, SourceFailed};
use std::alloc::Global;

/// The source of a leg of a script. It tells its bytes, and how often it failed and ended.
#[derive(Drop)]
pub struct ScriptSource {
    source: MemSource,
    faults: u64,
    ends: u64,
}

impl ScriptSource {
    fn new(source: MemSource) -> ScriptSource
        ensures { (result.source ≡ source) × (result.faults ≡ 0) × (result.ends ≡ 0) }
    {
        ScriptSource {
            source,
            faults: 0,
            ends: 0,
        }
    }

    /// How often it failed.
    pub fn faults(&self) -> u64
        ensures { ⟦<ScriptSource as Source>⟧.faults self.now ≡ result }
    {
        self.faults
    }

    /// How often it answered that it is at its end.
    pub fn ends(&self) -> u64
        ensures { ⟦<ScriptSource as Source>⟧.ends self.now ≡ result }
    {
        self.ends
    }
}

impl Source for ScriptSource {
    ghost left = { λ s. ⟦<MemSource as Source>⟧.left s.source };

    ghost taken = { λ s. ⟦<MemSource as Source>⟧.taken s.source };

    ghost faults = { λ s. s.faults };

    ghost ends = { λ s. s.ends };

    fn read(&mut self, room: &mut [u8]) -> Result<usize, SourceFailed> {
        match self.source.read(room) {
            Ok(0) if !room.is_empty() => {
                self.ends = self.ends.saturating_add(1);
                Ok(0)
            }
            Ok(count) => Ok(count),
            Err(SourceFailed) => {
                self.faults = self.faults.saturating_add(1);
                Err(SourceFailed)
            }
        }
    }
}

impl ShutSource for ScriptSource {
    fn shut(&mut self) {}
}

impl Ready for ScriptSource {
    /// No read in memory waits.
    fn ready(&mut self, _most: u32) -> bool
        ensures bytes { Stays (⟦<ScriptSource as Source>⟧.left self.old)
            (⟦<ScriptSource as Source>⟧.left self.new)
            (⟦<ScriptSource as Source>⟧.taken self.old)
            (⟦<ScriptSource as Source>⟧.taken self.new) }
        ensures counts { (self.new.faults ≡ self.old.faults) × (self.new.ends ≡ self.old.ends) }
        ensures unfailing { ⟦<ScriptSource as Source>⟧.unfailing self.old
            → ⟦<ScriptSource as Source>⟧.unfailing self.new }
        ensures ready { result ≡ true }
        ensures same { self.new ≡ self.old }
    {
        true
    }
}

/// The sink of a leg of a script. It tells its bytes, and how often it failed.
#[derive(Drop)]
pub struct ScriptSink {
    // The sink of a leg that nobody made takes no byte.
    sink: Option<MemSink>,
    faults: u64,
}

impl ScriptSink {
    fn new(sink: Option<MemSink>) -> ScriptSink
        ensures { (result.sink ≡ sink) × (result.faults ≡ 0) }
    {
        ScriptSink { sink, faults: 0 }
    }

    /// The bytes that were written, in order.
    pub fn written(&self) -> &[u8]
        ensures { ⟦<ScriptSink as Sink>⟧.written self.now ≡ Some result.now }
    {
        match &self.sink {
            Some(sink) => sink.written(),
            None => &[],
        }
    }

    /// How often it failed.
    pub fn faults(&self) -> u64
        ensures { ⟦<ScriptSink as Sink>⟧.faults self.now ≡ result }
    {
        self.faults
    }
}

impl Sink for ScriptSink {
    ghost written = { λ s. elim s.sink
        [ Some sink ↦ ⟦<MemSink as Sink>⟧.written sink | None ↦ Some [] ] };

    ghost faults = { λ s. s.faults };

    fn write(&mut self, piece: &[u8]) -> Result<usize, SinkFailed> {
        if piece.is_empty() {
            return Ok(0);
        }
        if let Some(sink) = &mut self.sink {
            if let Ok(count) = sink.write(piece) {
                return Ok(count);
            }
        }
        self.faults = self.faults.saturating_add(1);
        Err(SinkFailed)
    }
}

impl ShutSink for ScriptSink {
    fn shut(&mut self) {}
}

/// The streams that were handed back to a script, of each kind as many as there is room for.
#[derive(Drop)]
pub struct TakenBack {
    sources: Vec<ScriptSource>,
    sinks: Vec<ScriptSink>,
    room: usize,
    ghost sources_fit: { room ≤ vec_capacity sources },
    ghost sinks_fit: { room ≤ vec_capacity sinks },
}

impl TakenBack {
    fn new(alloc: Global, room: usize) -> Result<TakenBack, NoMemory>
        ensures { IfOk result (λ b. (b.sources.items ≡ []) × (b.sinks.items ≡ [])
            × (b.room ≡ room)) }
    {
        Ok(TakenBack {
            sources: Vec::with_capacity(alloc, room)?,
            sinks: Vec::with_capacity(alloc, room)?,
            room,
        })
    }

    /// The sources, in the order in which they were handed back.
    pub fn sources(&self) -> &[ScriptSource]
        ensures { result.now ≡ self.now.sources.items }
    {
        self.sources.as_slice()
    }

    /// The sinks, in the order in which they were handed back.
    pub fn sinks(&self) -> &[ScriptSink]
        ensures { result.now ≡ self.now.sinks.items }
    {
        self.sinks.as_slice()
    }

    // These and a further source, where there is room for it.
    fn with_source(mut self, source: ScriptSource) -> Option<TakenBack>
        ensures { MatchOption result (self.room ≤ vec_len self.sources) (λ b.
            (b.sources.items ≡ self.sources.items ++ source ∷ []) × (b.sinks ≡ self.sinks)
            × (b.room ≡ self.room) × (vec_len self.sources < self.room)) }
    {
        if self.room <= self.sources.len() {
            return None;
        }
        let Ok(()) = self.sources.push(source) else {
            unreachable!()
        };
        Some(self)
    }

    // These and a further sink, where there is room for it.
    fn with_sink(mut self, sink: ScriptSink) -> Option<TakenBack>
        ensures { MatchOption result (self.room ≤ vec_len self.sinks) (λ b.
            (b.sinks.items ≡ self.sinks.items ++ sink ∷ []) × (b.sources ≡ self.sources)
            × (b.room ≡ self.room) × (vec_len self.sinks < self.room)) }
    {
        if self.room <= self.sinks.len() {
            return None;
        }
        let Ok(()) = self.sinks.push(sink) else {
            unreachable!()
        };
        Some(self)
    }
}

/// A net that gives the legs of two lists, one to connect and one to accept, in order.
///
/// Behind its list a call to connect fails, and one to accept gives a leg whose source is at its
/// end. It tells the streams that are handed back as long as no more sources, and no more sinks,
/// come than both lists had legs together, and none from then on. It asks no address.
#[derive(Drop)]
pub struct ScriptNet {
    alloc: Global,
    // The next leg stands last.
    connects: Vec<(MemSource, MemSink)>,
    accepts: Vec<(MemSource, MemSink)>,
    fails: FailingCalls,
    counts: NetCounts,
    backs: Option<TakenBack>,
    ghost unread: { All (λ leg. ⟦<MemSource as Source>⟧.taken leg.0 ≡ Some []) connects.items
        × All (λ leg. ⟦<MemSource as Source>⟧.taken leg.0 ≡ Some []) accepts.items },
    ghost unwritten: { All (λ leg. ⟦<MemSink as Sink>⟧.written leg.1 ≡ Some []) connects.items
        × All (λ leg. ⟦<MemSink as Sink>⟧.written leg.1 ≡ Some []) accepts.items },
}

impl ScriptNet {
    /// A net that gives `connects` and `accepts`, each in its order.
    ///
    /// `fails` has the numbers of the calls of `gives` and `listen` that fail, counted from 1 over
    /// both.
    pub fn new(
        alloc: Global,
        connects: Vec<(MemSource, MemSink)>,
        accepts: Vec<(MemSource, MemSink)>,
        fails: Vec<u64>,
    ) -> Result<ScriptNet, NoMemory>
        requires unread { All (λ leg. ⟦<MemSource as Source>⟧.taken leg.0 ≡ Some []) connects.items
            × All (λ leg. ⟦<MemSource as Source>⟧.taken leg.0 ≡ Some []) accepts.items }
        requires unwritten { All (λ leg. ⟦<MemSink as Sink>⟧.written leg.1 ≡ Some []) connects.items
            × All (λ leg. ⟦<MemSink as Sink>⟧.written leg.1 ≡ Some []) accepts.items }
        ensures legs { IfOk result (λ n. (n.connects.items ≡ reverse connects.items)
            × (n.accepts.items ≡ reverse accepts.items)) }
        ensures told { IfOk result (λ n. ⟦<ScriptNet as Net>⟧.backs n ≡ Some no_backs) }
        ensures asked { IfOk result (λ n. (n.fails.numbers ≡ fails) × (n.fails.calls ≡ 0)) }
        ensures counts { IfOk result
            (λ n. n.counts ≡ record { faults = 0; given = 0; leg_faults = 0; leg_ends = 0 }) }
        ensures backs { IfOk result (λ n. MatchOption n.backs ⊥ (λ b. (b.sources.items ≡ [])
            × (b.sinks.items ≡ [])
            × (b.room ≡ vec_len connects + vec_len accepts))) }
    {
        let room = connects.len().checked_add(accepts.len()).ok_or(NoMemory)?;
        let backs = TakenBack::new(alloc, room)?;
        let mut connects = connects;
        connects.reverse();
        let mut accepts = accepts;
        accepts.reverse();
        Ok(ScriptNet {
            alloc,
            connects,
            accepts,
            fails: FailingCalls::new(fails),
            counts: NetCounts::new(),
            backs: Some(backs),
        })
    }

    /// The counts of this net.
    pub fn counts(&self) -> NetCounts
        ensures { ⟦<ScriptNet as Net>⟧.counts self.now ≡ result }
    {
        self.counts
    }

    /// The streams taken back, where it tells them.
    pub fn backs(&self) -> Option<&TakenBack>
        ensures { ⟦<ScriptNet as Net>⟧.backs self.now ≡ option_map (λ b. backs_of
            (map (λ s. back_source
            (⟦<ScriptSource as Source>⟧.taken s) s.faults s.ends) b.now.sources.items)
            (map (λ s. back_sink
            (⟦<ScriptSink as Sink>⟧.written s) s.faults) b.now.sinks.items)) result }
    {
        self.backs.as_ref()
    }

    // Gives the next leg to connect, or fails where none is left.
    fn connect(&mut self) -> Result<(ScriptSource, ScriptSink), NetFailed>
        ensures leg { GivesLeg result (IsUnused ⟦<ScriptSource as Source>⟧.taken
            ⟦<ScriptSource as Source>⟧.faults ⟦<ScriptSource as Source>⟧.ends
            ⟦<ScriptSink as Sink>⟧.written ⟦<ScriptSink as Sink>⟧.faults)
            self.old.counts self.new.counts }
        ensures gives { MatchResult result
            (λ leg. GivesLast self.old.connects.items self.new.connects.items
            leg.0.source leg.1.sink)
            (λ _. self.new.connects.items ≡ self.old.connects.items) }
        ensures fails { is_err result
            ≡ (fails_next self.old.fails.numbers.items self.old.fails.calls
            || vec_len self.old.connects == 0) }
        ensures next { (self.new.fails.calls ≡ one_more self.old.fails.calls)
            × (self.new.fails.numbers ≡ self.old.fails.numbers)
            × (self.new.accepts ≡ self.old.accepts) × (self.new.backs ≡ self.old.backs) }
    {
        if !self.fails.next_fails() {
            if let Some((source, sink)) = self.connects.pop() {
                self.counts.count_given();
                return Ok((ScriptSource::new(source), ScriptSink::new(Some(sink))));
            }
        }
        self.counts.count_fault();
        Err(NetFailed)
    }

    // Gives the next leg to accept, and behind the last a leg that is at its end.
    fn accept(&mut self) -> Result<(ScriptSource, ScriptSink), NetFailed>
        ensures leg { GivesLeg result (IsUnused ⟦<ScriptSource as Source>⟧.taken
            ⟦<ScriptSource as Source>⟧.faults ⟦<ScriptSource as Source>⟧.ends
            ⟦<ScriptSink as Sink>⟧.written ⟦<ScriptSink as Sink>⟧.faults)
            self.old.counts self.new.counts }
        ensures gives { MatchResult result
            (λ leg. GivesLastOrEnd self.old.accepts.items self.new.accepts.items
            (⟦<ScriptSource as Source>⟧.left leg.0) leg.0.source leg.1.sink)
            (λ _. self.new.accepts.items ≡ self.old.accepts.items) }
        ensures fails { is_err result
            ≡ fails_next self.old.fails.numbers.items self.old.fails.calls }
        ensures next { (self.new.fails.calls ≡ one_more self.old.fails.calls)
            × (self.new.fails.numbers ≡ self.old.fails.numbers)
            × (self.new.connects ≡ self.old.connects) × (self.new.backs ≡ self.old.backs) }
    {
        if self.fails.next_fails() {
            self.counts.count_fault();
            return Err(NetFailed);
        }
        if let Some((source, sink)) = self.accepts.pop() {
            self.counts.count_given();
            return Ok((ScriptSource::new(source), ScriptSink::new(Some(sink))));
        }
        self.counts.count_given();
        Ok(end_leg(self.alloc))
    }
}

impl Net for ScriptNet {
    type In = ScriptSource;

    type Out = ScriptSink;

    type Came = NetCall;

    type Way = MemWay;

    ghost counts = { λ n. n.counts };

    ghost backs = { λ n. option_map (λ b. backs_of
        (map (λ s. back_source
        (⟦<ScriptSource as Source>⟧.taken s) s.faults s.ends) b.sources.items)
        (map (λ s. back_sink (⟦<ScriptSink as Sink>⟧.written s) s.faults) b.sinks.items)) n.backs };

    fn back_in(&mut self, source: ScriptSource)
        ensures counts { self.new.counts
            ≡ source_back self.old.counts source.faults source.ends }
        ensures backs { TellsAtMost (⟦<ScriptNet as Net>⟧.backs self.old)
            (⟦<ScriptNet as Net>⟧.backs self.new)
            (λ b. with_source b (back_source
            (⟦<ScriptSource as Source>⟧.taken source) source.faults source.ends)) }
        ensures later { AreLater self.old.counts self.new.counts }
        ensures told { MatchOption self.old.backs (self.new.backs ≡ None) (λ old.
            MatchOption self.new.backs (old.room ≤ vec_len old.sources) (λ new.
            (new.sources.items ≡ old.sources.items ++ source ∷ []) × (new.sinks ≡ old.sinks)
            × (new.room ≡ old.room))) }
        ensures legs { (self.new.connects ≡ self.old.connects)
            × (self.new.accepts ≡ self.old.accepts)
            × (self.new.fails ≡ self.old.fails) }
    {
        self.counts.count_source(source.faults, source.ends);
        self.backs = match self.backs.take() {
            Some(backs) => backs.with_source(source),
            None => None,
        };
    }

    fn back_out(&mut self, sink: ScriptSink)
        ensures counts { self.new.counts ≡ sink_back self.old.counts sink.faults }
        ensures backs { TellsAtMost (⟦<ScriptNet as Net>⟧.backs self.old)
            (⟦<ScriptNet as Net>⟧.backs self.new)
            (λ b. with_sink b (back_sink (⟦<ScriptSink as Sink>⟧.written sink) sink.faults)) }
        ensures later { AreLater self.old.counts self.new.counts }
        ensures told { MatchOption self.old.backs (self.new.backs ≡ None) (λ old.
            MatchOption self.new.backs (old.room ≤ vec_len old.sinks) (λ new.
            (new.sinks.items ≡ old.sinks.items ++ sink ∷ []) × (new.sources ≡ old.sources)
            × (new.room ≡ old.room))) }
        ensures legs { (self.new.connects ≡ self.old.connects)
            × (self.new.accepts ≡ self.old.accepts)
            × (self.new.fails ≡ self.old.fails) }
    {
        self.counts.count_sink(sink.faults);
        self.backs = match self.backs.take() {
            Some(backs) => backs.with_sink(sink),
            None => None,
        };
    }

    fn way(&mut self) -> Result<MemWay, NetFailed>
        ensures ok { OnOk result (self.new.counts ≡ self.old.counts) }
        ensures err { OnErr result (CountsFault self.old.counts self.new.counts) }
        ensures later { AreLater self.old.counts self.new.counts }
        ensures backs { ⟦<ScriptNet as Net>⟧.backs self.new ≡ ⟦<ScriptNet as Net>⟧.backs self.old }
        ensures same { IsOk result × (self.new ≡ self.old) }
    {
        Ok(MemWay)
    }

    fn gives(&mut self, came: NetCall) -> Result<(ScriptSource, ScriptSink), NetFailed>
        ensures leg { GivesLeg result (IsUnused ⟦<ScriptSource as Source>⟧.taken
            ⟦<ScriptSource as Source>⟧.faults ⟦<ScriptSource as Source>⟧.ends
            ⟦<ScriptSink as Sink>⟧.written ⟦<ScriptSink as Sink>⟧.faults)
            self.old.counts self.new.counts }
        ensures backs { ⟦<ScriptNet as Net>⟧.backs self.new ≡ ⟦<ScriptNet as Net>⟧.backs self.old }
        ensures gives { elim came [
          | Connect _ ↦ (self.new.accepts ≡ self.old.accepts) × MatchResult result
              (λ leg. GivesLast self.old.connects.items self.new.connects.items
              leg.0.source leg.1.sink)
              (λ _. self.new.connects.items ≡ self.old.connects.items)
          | Accept ↦ (self.new.connects ≡ self.old.connects) × MatchResult result
              (λ leg. GivesLastOrEnd self.old.accepts.items self.new.accepts.items
              (⟦<ScriptSource as Source>⟧.left leg.0) leg.0.source leg.1.sink)
              (λ _. self.new.accepts.items ≡ self.old.accepts.items)
        ] }
        ensures fails { is_err result
            ≡ (fails_next self.old.fails.numbers.items self.old.fails.calls
            || lacks_leg came (vec_len self.old.connects)) }
        ensures next { (self.new.fails.calls ≡ one_more self.old.fails.calls)
            × (self.new.fails.numbers ≡ self.old.fails.numbers)
            × (self.new.backs ≡ self.old.backs) }
    {
        match came {
            NetCall::Connect(_) => self.connect(),
            NetCall::Accept => self.accept(),
        }
    }

    fn listen(&mut self, _at: &Address) -> Result<(), NetFailed>
        ensures ok { OnOk result (self.new.counts ≡ self.old.counts) }
        ensures err { OnErr result (CountsFault self.old.counts self.new.counts) }
        ensures later { AreLater self.old.counts self.new.counts }
        ensures backs { ⟦<ScriptNet as Net>⟧.backs self.new ≡ ⟦<ScriptNet as Net>⟧.backs self.old }
        ensures fails { is_err result
            ≡ fails_next self.old.fails.numbers.items self.old.fails.calls }
        ensures next { (self.new.fails.calls ≡ one_more self.old.fails.calls)
            × (self.new.fails.numbers ≡ self.old.fails.numbers)
            × (self.new.connects ≡ self.old.connects)
            × (self.new.accepts ≡ self.old.accepts) × (self.new.backs ≡ self.old.backs) }
    {
        if self.fails.next_fails() {
            self.counts.count_fault();
            return Err(NetFailed);
        }
        Ok(())
    }
}

// A leg whose source is at its end and whose sink takes no byte. It takes no memory.
fn end_leg(alloc: Global) -> (ScriptSource, ScriptSink)
    ensures left { ⟦<ScriptSource as Source>⟧.left result.0 ≡ Some [] }
    ensures taken { ⟦<ScriptSource as Source>⟧.taken result.0 ≡ Some [] }
    ensures source { (result.0.faults ≡ 0) × (result.0.ends ≡ 0) }
    ensures sink { (result.1.sink ≡ None) × (result.1.faults ≡ 0) }
{
    let source = MemSource::new(Vec::new(alloc), Vec::new(alloc));
    (ScriptSource::new(source), ScriptSink::new(None))
}
