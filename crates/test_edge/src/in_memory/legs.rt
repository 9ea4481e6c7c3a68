//! Legs over a board, in one thread. Many a test is named by the mistake that it finds.

use crate::steps::Act::*;
use crate::steps::Call::*;
use crate::steps::Side::*;
use crate::steps::Step::*;
use crate::steps::halves::Half::{Sink as OfSink, Source as OfSource};
use crate::steps::{Nets, Step, Told};
use rh_net::in_memory::*;
use rh_net::{Address, NetCounts};
use std::alloc::Global;
use std::process::Abort;
use std::sync::{Arc, Wait};
use std::test::*;
use std::time::Clock;

impl<R: Wait + Copy> Told for MemNet<R> {
    fn told(&self) -> NetCounts {
        self.counts()
    }
}

// A net on a board, whose calls of these numbers fail, and on whose first leg these do.
fn net<R: Wait + Copy>(
    rt: R,
    alloc: Global,
    board: &Arc<Board, Global>,
    fails: &[u64],
    of_leg: &[u64],
) -> Option<MemNet<R>> {
    let mut legs = Vec::new(alloc);
    let fails_of_leg = LegFails {
        reads: Vec::from_slice(alloc, of_leg).ok()?,
        writes: Vec::from_slice(alloc, of_leg).ok()?,
    };
    legs.push(fails_of_leg).ok()?;
    let fails = Vec::from_slice(alloc, fails).ok()?;
    Some(MemNet::new(rt, Arc::try_clone(board).ok()?, legs, fails))
}

/// Two nets on a board for so many legs. These calls of the caller's net fail, and these on its
/// first leg.
pub fn nets<R: Wait + Clock + Copy>(
    rt: R,
    alloc: Global,
    legs: u32,
    fails: &[u64],
    of_leg: &[u64],
) -> Option<Nets<MemNet<R>>> {
    let board = Board::new(alloc, legs).ok()?;
    Some(Nets {
        caller: net(rt, alloc, &board, fails, of_leg)?,
        callee: net(rt, alloc, &board, &[], &[])?,
        to: Address::new(b"here", 1)?,
        legs: Vec::new(alloc),
    })
}

// Plays steps at two such nets.
fn play<R: Abort + Wait + Clock + Copy>(
    rt: R,
    alloc: Global,
    legs: u32,
    fails: &[u64],
    of_leg: &[u64],
    steps: &[Step],
) {
    let mut nets = nets(rt, alloc, legs, fails, of_leg).expect(&rt, "nets");
    let wrong = nets.first_wrong(steps);
    assert_eq!(rt; wrong, None, "{fails:?}");
}

#[test]
fn a_board_that_is_full_takes_no_caller(rt: HostRuntime) {
    static STEPS: [Step; 9] = [
        At(Caller, FailsToAccept),
        At(Caller, Listens),
        At(Caller, Connects),
        At(Caller, FailsToConnect),
        At(Caller, Accepts),
        At(Caller, Accepts),
        On(2, WouldNotWait),
        On(2, FindsEnd),
        On(2, FailsToWrite),
    ];
    play(rt, rt.alloc(), 1, &[], &[], &STEPS);
}

#[test]
fn finds_failures_of_a_net_that_are_planned_and_ignored(rt: HostRuntime) {
    const STEPS: [[Step; 4]; 4] = [
        [
            At(Caller, FailsToListen),
            At(Caller, Connects),
            At(Caller, FailsToAccept),
            At(Caller, Counts(2, 1, 0, 0)),
        ],
        [
            At(Caller, Listens),
            At(Caller, FailsToConnect),
            At(Caller, Accepts),
            At(Caller, Counts(1, 1, 0, 0)),
        ],
        [
            At(Caller, Listens),
            At(Caller, Connects),
            At(Caller, FailsToAccept),
            At(Caller, Counts(1, 1, 0, 0)),
        ],
        [
            At(Caller, Listens),
            At(Caller, Connects),
            At(Caller, Accepts),
            At(Caller, Counts(0, 2, 0, 0)),
        ],
    ];
    play(rt, rt.alloc(), 1, &[1], &[], &STEPS[0]);
    play(rt, rt.alloc(), 1, &[2], &[], &STEPS[1]);
    play(rt, rt.alloc(), 1, &[3], &[], &STEPS[2]);
    play(rt, rt.alloc(), 1, &[4], &[], &STEPS[3]);
}

#[test]
fn finds_failures_of_a_leg_that_are_planned_and_ignored(rt: HostRuntime) {
    static STEPS: [Step; 16] = [
        At(Callee, Listens),
        At(Caller, Connects),
        At(Callee, Accepts),
        On(0, Writes(b"one")),
        On(0, FailsToWrite),
        On(1, Reads(b"one")),
        On(1, Writes(b"two")),
        On(0, Reads(b"two")),
        On(0, WouldNotWait),
        On(0, FailsToRead),
        At(Caller, TakesBack(0, OfSink)),
        On(1, FindsEnd),
        At(Caller, TakesBack(0, OfSource)),
        At(Callee, TakesBack(1, OfSource)),
        At(Caller, Counts(0, 1, 2, 0)),
        At(Callee, Counts(0, 1, 0, 1)),
    ];
    play(rt, rt.alloc(), 1, &[], &[2], &STEPS);
}

#[test]
fn finds_a_short_write_that_is_told_as_whole(rt: HostRuntime) {
    static STEPS: [Step; 5] = [
        At(Callee, Listens),
        At(Caller, Connects),
        At(Callee, Accepts),
        On(0, WritesOf(40_000, 40_000)),
        On(0, WritesOf(40_000, 25_536)),
    ];
    play(rt, rt.alloc(), 1, &[], &[], &STEPS);
}

#[test]
fn finds_a_party_that_reads_its_own_bytes(rt: HostRuntime) {
    static STEPS: [Step; 10] = [
        At(Callee, Listens),
        At(Caller, Connects),
        At(Callee, Accepts),
        On(0, Writes(b"ping")),
        On(0, WouldWait),
        On(1, WouldNotWait),
        On(1, Reads(b"ping")),
        On(1, Writes(b"pong")),
        On(1, WouldWait),
        On(0, Reads(b"pong")),
    ];
    play(rt, rt.alloc(), 1, &[], &[], &STEPS);
}

#[test]
fn finds_one_lane_for_all_legs(rt: HostRuntime) {
    static STEPS: [Step; 9] = [
        At(Callee, Listens),
        At(Caller, Connects),
        At(Caller, Connects),
        At(Callee, Accepts),
        At(Callee, Accepts),
        On(0, Writes(b"one")),
        On(1, Writes(b"two")),
        On(3, Reads(b"two")),
        On(2, Reads(b"one")),
    ];
    play(rt, rt.alloc(), 2, &[], &[], &STEPS);
}

#[test]
fn finds_a_shut_that_ends_both_ways(rt: HostRuntime) {
    static STEPS: [Step; 9] = [
        At(Callee, Listens),
        At(Caller, Connects),
        At(Callee, Accepts),
        On(0, Shuts(OfSink)),
        On(1, FindsEnd),
        On(1, Writes(b"pong")),
        On(0, Reads(b"pong")),
        On(0, Shuts(OfSource)),
        On(1, FailsToWrite),
    ];
    play(rt, rt.alloc(), 1, &[], &[], &STEPS);
}

#[test]
fn finds_a_leg_that_ends_nothing_when_it_is_dropped(rt: HostRuntime) {
    static STEPS: [Step; 10] = [
        At(Callee, Listens),
        At(Caller, Connects),
        At(Callee, Accepts),
        On(0, Writes(b"last")),
        On(0, Drops(OfSink)),
        On(1, Reads(b"last")),
        On(1, FindsEnd),
        On(1, Writes(b"pong")),
        On(0, Drops(OfSource)),
        On(1, FailsToWrite),
    ];
    play(rt, rt.alloc(), 1, &[], &[], &STEPS);
}
