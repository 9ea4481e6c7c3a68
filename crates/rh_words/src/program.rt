//! What a program's `main` does around the top call.

use crate::claims::Claims;
use crate::running::run;
use crate::status::Status;
use rh_io::{Sink, Source};
use std::alloc::Global;
use std::env;
use std::io::{Eprint, ErrorKind};
use std::process::ExitCode;
use std::rt::Env;

/// Does what the words behind the program's own name say, from the input to the output. Any status
/// but `Done` is told on standard error, and its number is the exit status.
pub fn run_program<C: Claims, H: AllocGlobal + Env + Eprint, R: Source, W: Sink>(
    rt: &H,
    input: &mut R,
    output: &mut W,
) -> ExitCode {
    let status = match words_of(rt) {
        Ok(words) => run::<C, R, W>(rt.alloc(), &words, input, output),
        Err(status) => status,
    };
    if status.number() != 0 {
        let _ = eprintln!(rt; "{status}");
    }
    ExitCode::from(status.number())
}

/// The words behind the program's own name.
fn words_of<H: AllocGlobal + Env>(rt: &H) -> Result<Vec<String>, Status> {
    let mut words = Vec::new(rt.alloc());
    match env::args(rt) {
        Ok(args) => {
            for word in args.skip(1) {
                if words.push(word).is_err() {
                    return Err(Status::NoMemory);
                }
            }
            Ok(words)
        }
        Err(error) if error.kind() == ErrorKind::InvalidData => Err(Status::Usage),
        Err(_) => Err(Status::NoMemory),
    }
}
