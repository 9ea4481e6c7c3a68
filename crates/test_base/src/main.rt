//! Tries the libraries that the roles and the worlds stand on: reads calls from standard input, one
//! on each line, and answers each on a line of its own.
//!
//! `stdin` has the calls, and `stdout` the answers that they must have, line for line. A line is
//! the name of a family, that of a call, and what the call is made with:
//!
//! - `bytes` sets what stands before and behind the bytes of the lines below it;
//! - `pdu`, `packet`, `name`, `called`, `head`, `window`, `keep`, `line`, `queue`, `show`, `record`
//!   and `text` make the calls, on what the lines above left; each module says which there are;
//! - `#` is told again.
#![tactic(auto)]

mod called;
mod heads;
mod keep;
mod lines;
mod names;
mod numbers;
mod packets;
mod pdus;
mod queues;
mod records;
mod script;
mod shows;
mod spelling;
mod texts;
mod windows;

use rh_io::{ReaderSource, WriterSink, read_whole, write_whole};
use std::process::ExitCode;

/// The most bytes of input.
const MOST_INPUT: usize = 4_000_000;

fn main(rt: HostRuntime) -> ExitCode {
    let mut input = ReaderSource::new(rt.stdin());
    let mut output = WriterSink::new(rt.stdout());
    let Ok(calls) = read_whole(rt.alloc(), &mut input, MOST_INPUT) else {
        return ExitCode::from(1);
    };
    let Ok(answers) = script::answers(rt.alloc(), &calls) else {
        return ExitCode::from(2);
    };
    match write_whole(&mut output, answers.as_bytes()) {
        Ok(()) => ExitCode::from(0),
        Err(_) => ExitCode::from(3),
    }
}
