//! Reads one PDU from standard input and passes it on as often as so many bytes hold it: with the
//! word `up` from a client through an in proxy to a server, with `down` back through an out proxy,
//! and with `in` through an in proxy alone, whose server acknowledges. The second word is how many
//! bytes at most. Prints how many bytes came out. `bench/roles.py` measures it.
#![tactic(auto)]

ghost use Rattle.rh_pdu.specs.Frames.{IsPdu};

mod alone;
mod connection;
mod nodes;

use crate::alone::through_in_proxy;
use crate::connection::{Connection, Way};
use rh_io::{ReaderSource, read_whole};
use rh_pdu::check;
use std::alloc::Global;
use std::env;
use std::process::ExitCode;

/// The most bytes of input, which is one PDU.
const MOST_INPUT: usize = 8192;

/// Through what the PDU is passed.
#[derive(Clone, Copy)]
enum Course {
    Connection(Way),
    InProxy,
}

/// The course that a word asks for.
fn course_of(word: &str) -> Option<Course> {
    match word {
        "up" => Some(Course::Connection(Way::Up)),
        "down" => Some(Course::Connection(Way::Down)),
        "in" => Some(Course::InProxy),
        _ => None,
    }
}

/// What the words ask for: the course, and the most bytes.
fn asked(rt: &HostRuntime) -> Option<(Course, u64)> {
    let mut words = env::args(rt).ok()?;
    let course = course_of(words.nth(1)?.as_str())?;
    let most = words.next()?.as_str().parse().ok()?;
    Some((course, most))
}

/// How many bytes came out.
fn passed(alloc: Global, course: Course, pdu: &[u8], most: u64) -> Option<u64>
    requires { IsPdu pdu.now }
{
    match course {
        Course::Connection(way) => Connection::opened(alloc)?.pass(way, pdu, most),
        Course::InProxy => through_in_proxy(alloc, pdu, most),
    }
}

fn main(rt: HostRuntime) -> ExitCode {
    let Some((course, most)) = asked(&rt) else {
        let _ = eprintln!(rt; "give two words: up, down or in, and the most bytes");
        return ExitCode::from(1);
    };
    let mut input = ReaderSource::new(rt.stdin());
    let Ok(pdu) = read_whole(rt.alloc(), &mut input, MOST_INPUT) else {
        let _ = eprintln!(rt; "the input was not read");
        return ExitCode::from(1);
    };
    if check(&pdu).is_err() {
        let _ = eprintln!(rt; "the input is no PDU");
        return ExitCode::from(1);
    }
    let Some(passed) = passed(rt.alloc(), course, &pdu, most) else {
        let _ = eprintln!(rt; "there was no memory, or a PDU did not come out");
        return ExitCode::from(1);
    };
    let _ = println!(rt; "{passed} bytes");
    ExitCode::from(0)
}
