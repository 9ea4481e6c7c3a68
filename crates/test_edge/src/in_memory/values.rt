//! A pipe and a list of callers, as values.

use rh_io::NoMemory;
use rh_net::Address;
use rh_net::in_memory::*;
use std::alloc::Global;
use std::test::*;

// Something done with a pipe, and what comes of it.
#[derive(Clone, Copy)]
enum PipeStep {
    // A read into a room of 4 bytes, the same for all reads, finds this, and leaves these there.
    Takes(Found, [u8; 4]),
    // A write of a piece.
    Puts(&'static [u8], Put),
    EndsWriter,
    EndsReader,
}

fn holds(pipe: &mut Pipe, room: &mut [u8; 4], step: PipeStep) -> bool {
    match step {
        PipeStep::Takes(found, bytes) => pipe.take(room) == found && *room == bytes,
        PipeStep::Puts(piece, put) => !piece.is_empty() && pipe.put(piece) == put,
        PipeStep::EndsWriter => {
            pipe.end_writer();
            true
        }
        PipeStep::EndsReader => {
            pipe.end_reader();
            true
        }
    }
}

// The number of the first step of a new pipe from which something else comes.
fn first_wrong(alloc: Global, steps: &[PipeStep]) -> Result<Option<usize>, NoMemory> {
    let mut pipe = Pipe::new(alloc)?;
    let mut room = [0; 4];
    for (number, step) in steps.iter().enumerate() {
        if !holds(&mut pipe, &mut room, *step) {
            return Ok(Some(number));
        }
    }
    Ok(None)
}

#[test]
fn a_pipe_gives_what_was_put_and_then_its_end(rt: HostRuntime) -> Result<(), Fail> {
    static STEPS: [PipeStep; 6] = [
        PipeStep::Takes(Found::Nothing, [0; 4]),
        PipeStep::Puts(b"hello", Put::Bytes(5)),
        PipeStep::Takes(Found::Bytes(4), *b"hell"),
        PipeStep::EndsWriter,
        PipeStep::Takes(Found::Bytes(1), *b"oell"),
        PipeStep::Takes(Found::End, *b"oell"),
    ];
    assert_eq!(rt; first_wrong(rt.alloc(), &STEPS)?, None);
    Ok(())
}

#[test]
fn a_pipe_holds_65536_bytes_and_takes_none_once_its_reader_is_gone(
    rt: HostRuntime,
) -> Result<(), Fail> {
    const PIECE: [u8; 40_000] = [7; 40_000];
    static STEPS: [PipeStep; 7] = [
        PipeStep::Puts(&PIECE, Put::Bytes(40_000)),
        PipeStep::Puts(&PIECE, Put::Bytes(25_536)),
        PipeStep::Puts(&PIECE, Put::Full),
        PipeStep::Takes(Found::Bytes(4), [7; 4]),
        PipeStep::Puts(&PIECE, Put::Bytes(4)),
        PipeStep::EndsReader,
        PipeStep::Puts(&PIECE, Put::NoReader),
    ];
    assert_eq!(rt; first_wrong(rt.alloc(), &STEPS)?, None);
    Ok(())
}

// What is asked of a list of callers, at an address.
#[derive(Clone, Copy)]
enum Asks {
    Calls,
    Answers,
}

// What is asked, at which host and port, and which caller it is of.
type Case = (Asks, &'static [u8], u16, Option<usize>);

fn answers(callers: &mut Callers, case: Case) -> bool {
    let (asks, host, port, caller) = case;
    let Some(at) = Address::new(host, port) else {
        return false;
    };
    match asks {
        Asks::Calls => callers.call(&at) == caller,
        Asks::Answers => callers.answer(&at) == caller,
    }
}

#[test]
fn callers_are_answered_once_each_in_order_by_address(rt: HostRuntime) -> Result<(), Fail> {
    static CASES: [Case; 9] = [
        (Asks::Calls, b"here", 1, Some(0)),
        (Asks::Calls, b"there", 1, Some(1)),
        (Asks::Calls, b"here", 1, Some(2)),
        (Asks::Calls, b"here", 1, None),
        (Asks::Answers, b"here", 2, None),
        (Asks::Answers, b"here", 1, Some(0)),
        (Asks::Answers, b"here", 1, Some(2)),
        (Asks::Answers, b"here", 1, None),
        (Asks::Answers, b"there", 1, Some(1)),
    ];
    let mut callers = Callers::new(rt.alloc(), 3)?;
    for (number, case) in CASES.iter().enumerate() {
        assert!(rt; answers(&mut callers, *case), "case {number}");
    }
    Ok(())
}
