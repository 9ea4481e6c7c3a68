//! The legs of a script.

ghost use Rattle.std.specs.Prelude.{◌≡◌, [], Some, IfOk};

use crate::steps::Act::*;
use crate::steps::Call::*;
use crate::steps::Side::Caller;
use crate::steps::Step::*;
use crate::steps::halves::Half::{Sink as OfSink, Source as OfSource};
use crate::steps::{Nets, Step, Told};
use rh_io::{MemSink, MemSource, NoMemory, Sink, Source};
use rh_net::*;
use std::alloc::Global;
use std::process::Abort;
use std::test::*;

type Legs = Vec<(MemSource, MemSink)>;

// A leg that gives these bytes and has room for 4, whose second read fails.
fn one_leg(alloc: Global, bytes: &[u8]) -> Result<(MemSource, MemSink), NoMemory>
    ensures { IfOk result (λ leg. (⟦<MemSource as Source>⟧.taken leg.0 ≡ Some [])
        × (⟦<MemSink as Sink>⟧.written leg.1 ≡ Some [])) }
{
    let bytes = Vec::from_slice(alloc, bytes)?;
    let source = MemSource::new(bytes, Vec::from_slice(alloc, &[2])?);
    Ok((source, MemSink::new(alloc, 4, Vec::new(alloc))?))
}

// A net that connects one leg and accepts another, where `fails` lets it.
fn script(alloc: Global, fails: &[u64]) -> Result<ScriptNet, NoMemory> {
    let mut connects: Legs = Vec::new(alloc);
    connects.push(one_leg(alloc, b"out")?)?;
    let mut accepts: Legs = Vec::new(alloc);
    accepts.push(one_leg(alloc, b"in")?)?;
    ScriptNet::new(alloc, connects, accepts, Vec::from_slice(alloc, fails)?)
}

impl Told for ScriptNet {
    fn told(&self) -> NetCounts {
        self.counts()
    }
}

// Such a net as the caller's. The callee's isn't asked.
fn nets(alloc: Global, fails: &[u64]) -> Option<Nets<ScriptNet>> {
    Some(Nets {
        caller: script(alloc, fails).ok()?,
        callee: script(alloc, &[]).ok()?,
        to: Address::new(b"here", 1)?,
        legs: Vec::new(alloc),
    })
}

// Plays steps at such nets. Answers what the caller's tells of the first streams handed back:
// faults and ends of the source, faults and bytes of the sink.
fn play<R: Abort + Copy>(
    rt: R,
    alloc: Global,
    fails: &[u64],
    steps: &[Step],
) -> Option<(u64, u64, u64, usize)> {
    let mut nets = nets(alloc, fails).expect(&rt, "nets");
    let wrong = nets.first_wrong(steps);
    assert_eq!(rt; wrong, None, "{fails:?}");
    told(&nets.caller)
}

fn told(net: &ScriptNet) -> Option<(u64, u64, u64, usize)> {
    let backs = net.backs()?;
    let source = backs.sources().first()?;
    let sink = backs.sinks().first()?;
    let written = sink.written().len();
    Some((source.faults(), source.ends(), sink.faults(), written))
}

#[test]
fn a_script_gives_its_legs_in_order_and_then_fails_or_gives_an_end(rt: HostRuntime) {
    static STEPS: [Step; 9] = [
        At(Caller, Connects),
        At(Caller, FailsToConnect),
        At(Caller, Accepts),
        At(Caller, Accepts),
        On(0, Reads(b"out")),
        On(1, Reads(b"in")),
        On(2, WouldNotWait),
        On(2, FindsEnd),
        On(2, FailsToWrite),
    ];
    play(rt, rt.alloc(), &[], &STEPS);
}

#[test]
fn each_call_of_a_script_fails_in_turn_and_is_counted(rt: HostRuntime) {
    const STEPS: [[Step; 4]; 4] = [
        [
            At(Caller, FailsToListen),
            At(Caller, Connects),
            At(Caller, Accepts),
            At(Caller, Counts(1, 2, 0, 0)),
        ],
        [
            At(Caller, Listens),
            At(Caller, FailsToConnect),
            At(Caller, Accepts),
            At(Caller, Counts(1, 1, 0, 0)),
        ],
        [
            At(Caller, Listens),
            At(Caller, Connects),
            At(Caller, FailsToAccept),
            At(Caller, Counts(1, 1, 0, 0)),
        ],
        [
            At(Caller, Listens),
            At(Caller, Connects),
            At(Caller, Accepts),
            At(Caller, Counts(0, 2, 0, 0)),
        ],
    ];
    play(rt, rt.alloc(), &[1], &STEPS[0]);
    play(rt, rt.alloc(), &[2], &STEPS[1]);
    play(rt, rt.alloc(), &[3], &STEPS[2]);
    play(rt, rt.alloc(), &[4], &STEPS[3]);
}

#[test]
fn a_script_tells_what_is_handed_back_while_there_is_room(rt: HostRuntime) {
    const STEPS: [Step; 21] = [
        At(Caller, Connects),
        On(0, Reads(b"out")),
        On(0, FailsToRead),
        On(0, FindsEnd),
        On(0, WritesOf(5, 4)),
        On(0, FailsToWrite),
        On(0, Shuts(OfSource)),
        On(0, Shuts(OfSink)),
        At(Caller, TakesBack(0, OfSource)),
        At(Caller, TakesBack(0, OfSink)),
        At(Caller, Counts(0, 1, 2, 1)),
        At(Caller, Accepts),
        On(1, Shuts(OfSource)),
        On(1, Shuts(OfSink)),
        At(Caller, TakesBack(1, OfSource)),
        At(Caller, TakesBack(1, OfSink)),
        At(Caller, Accepts),
        On(2, Shuts(OfSource)),
        On(2, Shuts(OfSink)),
        At(Caller, TakesBack(2, OfSource)),
        At(Caller, TakesBack(2, OfSink)),
    ];
    let told = [
        play(rt, rt.alloc(), &[], &STEPS[..11]),
        play(rt, rt.alloc(), &[], &STEPS[..16]),
        play(rt, rt.alloc(), &[], &STEPS),
    ];
    assert_eq!(rt; told, [Some((1, 1, 1, 4)), Some((1, 1, 1, 4)), None]);
}
