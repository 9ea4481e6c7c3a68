//! Reads one PDU from standard input and passes it on as often as 1,000,000,000 bytes hold it: with
//! the word `send` through the queue of an end, with `recv` through a receiver's line, whose window
//! is acknowledged. Prints how many bytes came out. `bench/lines.py` measures it.
#![tactic(auto)]

ghost use Rattle.rh_pdu.specs.Frames.{IsPdu};

use rh_io::{ReaderSource, read_whole};
use rh_line::{LineTake, RecvLine, SendLine, Which};
use rh_pdu::check;
use std::alloc::Global;
use std::env;
use std::process::ExitCode;

/// The most bytes of input, which is one PDU.
const MOST_INPUT: usize = 8192;
/// How many bytes are passed on at most.
const MOST_PASSED: u64 = 1_000_000_000;
/// The window of the line, in bytes.
const WINDOW: u32 = 65_536;

/// Through what the PDU is passed.
#[derive(Clone, Copy)]
enum Way {
    Send,
    Recv,
}

/// The way that a word asks for.
fn way_of(word: &str) -> Option<Way> {
    match word {
        "send" => Some(Way::Send),
        "recv" => Some(Way::Recv),
        _ => None,
    }
}

/// How many bytes came out of a queue.
fn through_queue(alloc: Global, pdu: &[u8]) -> Option<u64>
    requires { IsPdu pdu.now }
{
    let mut queue = SendLine::new(alloc).ok()?;
    let mut room = [0; 8192];
    let mut passed: u64 = 0;
    for _ in 0..MOST_PASSED.checked_div(pdu.len() as u64)? {
        if !queue.push(pdu) {
            return None;
        }
        let len = queue.pop(&mut room)?;
        passed = passed.saturating_add(u64::from(len));
    }
    Some(passed)
}

/// How many bytes came out of a line.
fn through_line(alloc: Global, pdu: &[u8]) -> Option<u64>
    requires { IsPdu pdu.now }
{
    let mut line = RecvLine::new(alloc, WINDOW).ok()?;
    let mut room = [0; 8192];
    let mut passed: u64 = 0;
    for _ in 0..MOST_PASSED.checked_div(pdu.len() as u64)? {
        line.admit(Which::Current, pdu).ok()?;
        let LineTake::Pdu(len) = line.take(&mut room) else {
            return None;
        };
        passed = passed.saturating_add(u64::from(len));
        if let Some(ack) = line.due(Which::Current) {
            line.told(Which::Current, &ack);
        }
    }
    Some(passed)
}

/// The way that the first word asks for.
fn asked(rt: &HostRuntime) -> Option<Way> {
    let word = env::args(rt).ok()?.nth(1)?;
    way_of(word.as_str())
}

fn main(rt: HostRuntime) -> ExitCode {
    let Some(way) = asked(&rt) else {
        let _ = eprintln!(rt; "give one word: send or recv");
        return ExitCode::from(1);
    };
    let mut input = ReaderSource::new(rt.stdin());
    let Ok(pdu) = read_whole(rt.alloc(), &mut input, MOST_INPUT) else {
        let _ = eprintln!(rt; "the input was not read");
        return ExitCode::from(1);
    };
    if check(&pdu).is_err() {
        let _ = eprintln!(rt; "the input is no PDU");
        return ExitCode::from(1);
    }
    let passed = match way {
        Way::Send => through_queue(rt.alloc(), &pdu),
        Way::Recv => through_line(rt.alloc(), &pdu),
    };
    let Some(passed) = passed else {
        let _ = eprintln!(rt; "there was no memory, or a PDU did not come out");
        return ExitCode::from(1);
    };
    let _ = println!(rt; "{passed} bytes");
    ExitCode::from(0)
}
