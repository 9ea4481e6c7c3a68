//! The same program as users build, with what is proved of every recording for its claims.
#![tactic(auto)]

mod claims;
mod headline;

use headline::Headline;
use rh_io::{ReaderSource, WriterSink};
use rh_words::run_program;
use std::process::ExitCode;

fn main(rt: HostRuntime) -> ExitCode {
    let mut input = ReaderSource::new(rt.stdin());
    let mut output = WriterSink::new(rt.stdout());
    run_program::<Headline, _, _, _>(&rt, &mut input, &mut output)
}
