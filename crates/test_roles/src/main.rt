//! Plays the script of the four roles, whose answers stand in `stdout`, by the word `play`.
#![tactic(auto)]

use rh_io::{ReaderSource, WriterSink};
use rh_words::{Plain, run_program};
use std::process::ExitCode;

fn main(rt: HostRuntime) -> ExitCode {
    let mut input = ReaderSource::new(rt.stdin());
    let mut output = WriterSink::new(rt.stdout());
    run_program::<Plain, _, _, _>(&rt, &mut input, &mut output)
}
