//! Legs over loopback. Many a test is named by the mistake that it finds.

use crate::steps::Act::*;
use crate::steps::Call::*;
use crate::steps::Side::*;
use crate::steps::Step::*;
use crate::steps::halves::Half::{Sink as OfSink, Source as OfSource};
use crate::steps::halves::{drain, fill};
use crate::steps::{Nets, Step, Told};
use rh_net::{Address, Net, NetCounts, Ready};
use rh_tcp::*;
use std::alloc::Global;
use std::net::{self as sockets, TcpListener, TcpStream};
use std::process::Abort;
use std::test::*;
use std::time::{Clock, Instant};

const LOOPBACK: &[u8] = b"127.0.0.1";

impl<R: sockets::Net<Listener = TcpListener, Stream = TcpStream> + Copy> Told for TcpNet<R> {
    fn told(&self) -> NetCounts {
        self.counts()
    }
}

// Where the caller's calls go.
#[derive(Clone, Copy)]
enum To {
    // To the port of the callee, at a host.
    Callee(&'static [u8]),
    // To a port at which nobody listens any more.
    Nobody,
}

// A net that connects, and one that listens at a port of loopback. The writes of both wait for so
// many milliseconds at most.
fn nets<R: sockets::Net<Listener = TcpListener, Stream = TcpStream> + Copy>(
    rt: R,
    alloc: Global,
    to: To,
    write_wait: u32,
) -> Option<Nets<TcpNet<R>>> {
    let mut callee = TcpNet::with_write_wait(rt, write_wait);
    callee.listen(&Address::new(LOOPBACK, 0)?).ok()?;
    let port = callee.port()?;
    let host = match to {
        To::Callee(host) => host,
        To::Nobody => {
            callee = TcpNet::new(rt);
            LOOPBACK
        }
    };
    Some(Nets {
        caller: TcpNet::with_write_wait(rt, write_wait),
        callee,
        to: Address::new(host, port)?,
        legs: Vec::new(alloc),
    })
}

// Plays steps at such nets.
fn play<R: Abort + sockets::Net<Listener = TcpListener, Stream = TcpStream> + Copy>(
    rt: R,
    alloc: Global,
    to: To,
    steps: &[Step],
) {
    let mut nets = nets(rt, alloc, to, WRITE_WAIT).expect(&rt, "nets");
    let wrong = nets.first_wrong(steps);
    assert_eq!(rt; wrong, None);
}

#[test]
fn finds_a_shut_that_ends_both_ways(rt: HostRuntime) {
    static STEPS: [Step; 13] = [
        At(Caller, Connects),
        At(Callee, Accepts),
        On(1, WouldWait),
        On(0, Writes(b"ping")),
        On(1, WouldNotWait),
        On(1, Reads(b"ping")),
        On(0, Shuts(OfSink)),
        On(1, WouldNotWait),
        On(1, FindsEnd),
        On(1, Writes(b"pong")),
        On(0, Reads(b"pong")),
        At(Callee, TakesBack(1, OfSource)),
        At(Callee, Counts(0, 1, 0, 1)),
    ];
    play(rt, rt.alloc(), To::Callee(b"localhost"), &STEPS);
}

#[test]
fn finds_a_port_whose_bytes_are_swapped(rt: HostRuntime) {
    static STEPS: [Step; 5] = [
        At(Caller, FailsToListen),
        At(Caller, Connects),
        At(Callee, Accepts),
        On(0, Writes(b"here")),
        On(1, Reads(b"here")),
    ];
    play(rt, rt.alloc(), To::Callee(LOOPBACK), &STEPS);
}

#[test]
fn failures_are_counted(rt: HostRuntime) {
    static IN_USE: [Step; 4] = [
        At(Callee, MeetsNobody),
        At(Caller, FailsToAccept),
        At(Caller, FailsToListen),
        At(Caller, Counts(2, 0, 0, 0)),
    ];
    static NO_HOST: [Step; 2] = [At(Caller, FailsToListen), At(Caller, Counts(1, 0, 0, 0))];
    static REFUSED: [Step; 2] = [At(Caller, FailsToConnect), At(Caller, Counts(1, 0, 0, 0))];
    play(rt, rt.alloc(), To::Callee(LOOPBACK), &IN_USE);
    play(rt, rt.alloc(), To::Callee(b"\xff"), &NO_HOST);
    play(rt, rt.alloc(), To::Nobody, &REFUSED);
}

// How many milliseconds the end of a leg's source takes to come, once its sink was shut and it was
// read up to there.
fn wait_for_end<C: Clock, N: Told + Drop>(clock: &C, nets: Option<Nets<N>>) -> Option<u128>
where
    N::In: Ready + Drop,
    N::Out: Drop,
{
    static STEPS: [Step; 5] = [
        At(Caller, Connects),
        At(Callee, Accepts),
        On(1, Writes(b"last")),
        On(0, Shuts(OfSink)),
        On(0, Reads(b"last")),
    ];
    let mut nets = nets?;
    let wrong = nets.first_wrong(&STEPS);
    let start = Instant::now(clock).ok()?;
    let wrong_end = nets.first_wrong(&[On(0, FindsEnd)]);
    let waited = start.elapsed(clock).ok()?.as_millis();
    match (wrong, wrong_end) {
        (None, None) => Some(waited),
        _ => None,
    }
}

#[test]
fn a_source_ends_five_seconds_after_its_sink_was_shut(rt: HostRuntime) {
    let nets = nets(rt, rt.alloc(), To::Callee(LOOPBACK), WRITE_WAIT);
    let waited = wait_for_end(&rt, nets).expect(&rt, "an end");
    assert!(rt; 4_500 <= waited && waited <= 6_500, "{waited}");
}

// How many bytes a leg takes while nobody reads them, and how many then come up to its end. The
// sink that they went to is taken back, and counted as one that failed.
fn fill_and_drain<N: Told + Drop>(nets: Option<Nets<N>>) -> Option<(usize, usize)>
where
    N::In: Ready + Drop,
    N::Out: Drop,
{
    static BEFORE: [Step; 2] = [At(Caller, Connects), At(Callee, Accepts)];
    static BEHIND: [Step; 2] = [
        At(Caller, TakesBack(0, OfSink)),
        At(Caller, Counts(0, 1, 1, 0)),
    ];
    let mut nets = nets?;
    let wrong = nets.first_wrong(&BEFORE);
    if nets.legs.len() != 2 {
        return None;
    }
    let filled = fill(&mut nets.legs[0]);
    let drained = drain(&mut nets.legs[1]);
    match (wrong, nets.first_wrong(&BEHIND)) {
        (None, None) => Some((filled, drained)),
        _ => None,
    }
}

#[test]
fn finds_a_short_write_that_is_told_as_whole_and_one_without_an_end(rt: HostRuntime) {
    let nets = nets(rt, rt.alloc(), To::Callee(LOOPBACK), 300);
    let (filled, drained) = fill_and_drain(nets).expect(&rt, "a leg");
    assert!(rt; 0 < filled && filled == drained, "{filled} {drained}");
}
