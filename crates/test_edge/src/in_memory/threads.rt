//! Legs over a board, between threads.

use super::legs::nets;
use crate::steps::halves::{Act, Half};
use crate::steps::{self, Leg};
use rh_io::{Sink, Source, SourceFailed};
use rh_net::in_memory::*;
use rh_net::{ShutSink, ShutSource};
use std::alloc::Global;
use std::sync::Wait;
use std::test::*;
use std::thread::{self, Threads};
use std::time::{Clock, Duration};

// How many bytes go each way.
const COUNT: usize = 1_000_000;

// How long a thread is left to itself, so that it waits, in milliseconds.
const PAUSE: u64 = 50;

// Writes so many bytes of 1, and shuts the sink. Answers how many went.
fn write_all<S: ShutSink + Drop>(sink: S, count: usize) -> usize {
    let mut sink = sink;
    let piece = [1u8; 1000];
    let mut left = count;
    for _ in 0..count {
        if left == 0 {
            break;
        }
        let Ok(gone) = sink.write(&piece[..left.min(1000)]) else {
            break;
        };
        left = left.saturating_sub(gone);
    }
    sink.shut();
    count.saturating_sub(left)
}

// Reads to the end, and answers the sum of all bytes.
fn read_all<S: Source + Drop>(source: S) -> usize {
    let mut source = source;
    let mut room = [0u8; 777];
    let mut sum = 0usize;
    for _ in 0..u64::MAX {
        match source.read(&mut room) {
            Ok(0) | Err(SourceFailed) => break,
            Ok(count) => {
                for byte in &room[..count] {
                    sum = sum.saturating_add(usize::from(*byte));
                }
            }
        }
    }
    sum
}

// Sends back what comes, to the end, and shuts its sink.
fn echo<S: ShutSource + Drop, T: ShutSink + Drop>(source: S, sink: T) -> bool {
    let (mut source, mut sink) = (source, sink);
    let mut room = [0u8; 3000];
    for _ in 0..u64::MAX {
        let Ok(count) = source.read(&mut room) else {
            return false;
        };
        if count == 0 {
            break;
        }
        if rh_io::write_whole(&mut sink, &room[..count]).is_err() {
            return false;
        }
    }
    sink.shut();
    source.shut();
    true
}

type End<R> = Leg<PipeSource<R>, PipeSink<R>>;

// The caller's end of a leg, and the callee's.
fn two_ends<R: Wait + Clock + Copy>(rt: R, alloc: Global) -> Option<(End<R>, End<R>)> {
    steps::two_ends(nets(rt, alloc, 1, &[], &[])?)
}

// Does something with an end in a thread, where it has to wait, and meanwhile something with the
// other end. Whether both come to what they must.
fn are_woken<R: Threads + Wait + Clock + Copy + Send + 'static>(
    rt: R,
    waiting: End<R>,
    waits: Act,
    ending: End<R>,
    ends: Act,
) -> bool {
    let mut ending = ending;
    let Ok(waiter) = thread::spawn(&rt, move || holds(waits, waiting)) else {
        return false;
    };
    thread::sleep(&rt, Duration::from_millis(PAUSE));
    ends.holds(&mut ending) && waiter.join(&rt)
}

fn holds<R: Wait + Clock + Copy>(act: Act, leg: End<R>) -> bool {
    let mut leg = leg;
    act.holds(&mut leg)
}

const ENDS_OF_A_SINK: [(&str, Act); 2] = [
    ("shut", Act::Shuts(Half::Sink)),
    ("dropped", Act::Drops(Half::Sink)),
];

const ENDS_OF_A_SOURCE: [(&str, Act); 2] = [
    ("shut", Act::Shuts(Half::Source)),
    ("dropped", Act::Drops(Half::Source)),
];

#[test]
fn finds_an_end_that_wakes_no_reader(rt: HostRuntime) {
    for (name, ends) in ENDS_OF_A_SINK {
        let (caller, callee) = two_ends(rt, rt.alloc()).expect(&rt, "a leg");
        let woken = are_woken(rt, callee, Act::FindsEnd, caller, ends);
        assert!(rt; woken, "{name}");
    }
}

#[test]
fn finds_an_end_that_wakes_no_writer(rt: HostRuntime) {
    for (name, ends) in ENDS_OF_A_SOURCE {
        let (mut caller, callee) = two_ends(rt, rt.alloc()).expect(&rt, "a leg");
        let filled = Act::WritesOf(40_000, 40_000).holds(&mut caller)
            && Act::WritesOf(40_000, 25_536).holds(&mut caller);
        let woken = are_woken(rt, caller, Act::FailsToWrite, callee, ends);
        assert!(rt; filled && woken, "{name}");
    }
}

#[test]
fn finds_bytes_that_wake_nobody(rt: HostRuntime) {
    let (caller, callee) = two_ends(rt, rt.alloc()).expect(&rt, "a leg");
    let (reads, writes) = (Act::Reads(b"ping"), Act::Writes(b"ping"));
    assert!(rt; are_woken(rt, callee, reads, caller, writes));
}

#[test]
fn threads_move_a_megabyte_each_way_over_a_leg(rt: HostRuntime) -> Result<(), Fail> {
    let (caller, callee) = two_ends(rt, rt.alloc()).expect(&rt, "a leg");
    let (source, sink) = streams(caller).expect(&rt, "the caller's streams");
    let (inner, outer) = streams(callee).expect(&rt, "the callee's streams");
    let writer = thread::spawn(&rt, move || write_all(sink, COUNT))?;
    let echoer = thread::spawn(&rt, move || echo(inner, outer))?;
    let came = read_all(source);
    assert_eq!(rt;
        (came, writer.join(&rt), echoer.join(&rt)),
        (COUNT, COUNT, true)
    );
    Ok(())
}

fn streams<I: Drop, O: Drop>(leg: Leg<I, O>) -> Option<(I, O)> {
    let Leg { source, sink } = leg;
    Some((source?, sink?))
}

#[test]
fn a_write_to_a_full_pipe_fails_once_the_reader_goes(rt: HostRuntime) -> Result<(), Fail> {
    let (caller, callee) = two_ends(rt, rt.alloc()).expect(&rt, "a leg");
    let (mut callee, (_, sink)) = (callee, streams(caller).expect(&rt, "the caller's streams"));
    let writer = thread::spawn(&rt, move || write_all(sink, COUNT))?;
    assert!(rt; Act::Reads(&[1; 4]).holds(&mut callee));
    assert!(rt; Act::Shuts(Half::Source).holds(&mut callee));
    let written = writer.join(&rt);
    assert!(rt; written <= PIPE_ROOM + 4, "{written}");
    Ok(())
}
