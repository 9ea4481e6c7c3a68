//! What is done with the two halves of a leg.

use rh_io::{Sink, Source, SourceFailed};
use rh_net::{Ready, ShutSink, ShutSource};

/// How long a read is watched, in milliseconds.
const WATCHED: u32 = 20;

/// The two streams of a leg, while they are there.
#[derive(Drop)]
pub struct Leg<I: Drop, O: Drop> {
    pub source: Option<I>,
    pub sink: Option<O>,
}

/// One half of a leg.
#[derive(Clone, Copy)]
pub enum Half {
    Source,
    Sink,
}

/// Something done with a leg, and what comes of it.
#[derive(Clone, Copy)]
pub enum Act {
    /// A read with room for 4 bytes gives these.
    Reads(&'static [u8]),
    /// It finds the end.
    FindsEnd,
    /// It fails.
    FailsToRead,
    /// It would wait.
    WouldWait,
    /// It would not.
    WouldNotWait,
    /// A write takes the whole piece.
    Writes(&'static [u8]),
    /// A write of so many bytes, 40,000 at most, takes so many.
    WritesOf(usize, usize),
    /// A write of one byte fails.
    FailsToWrite,
    /// The half is shut.
    Shuts(Half),
    /// The half is dropped.
    Drops(Half),
}

impl Act {
    /// Whether that comes of it.
    pub fn holds<I: Ready + ShutSource + Drop, O: ShutSink + Drop>(
        self,
        leg: &mut Leg<I, O>,
    ) -> bool {
        match self {
            Act::Drops(half) => {
                drop_half(leg, half);
                true
            }
            Act::Writes(_) | Act::WritesOf(_, _) | Act::FailsToWrite | Act::Shuts(Half::Sink) => {
                match &mut leg.sink {
                    Some(sink) => self.holds_of_sink(sink),
                    None => false,
                }
            }
            _ => match &mut leg.source {
                Some(source) => self.holds_of_source(source),
                None => false,
            },
        }
    }

    fn holds_of_source<I: Ready + ShutSource>(self, source: &mut I) -> bool {
        match self {
            Act::Reads(bytes) => reads(source, bytes),
            Act::FindsEnd => reads(source, b""),
            Act::FailsToRead => source.read(&mut [0u8; 4]) == Err(SourceFailed),
            Act::WouldWait => !source.ready(WATCHED),
            Act::WouldNotWait => source.ready(WATCHED),
            Act::Shuts(_) => {
                source.shut();
                true
            }
            _ => false,
        }
    }

    fn holds_of_sink<O: ShutSink>(self, sink: &mut O) -> bool {
        match self {
            Act::Writes(piece) => writes(sink, piece, piece.len()),
            Act::WritesOf(count, taken) => {
                count <= MANY.len() && writes(sink, &MANY[..count], taken)
            }
            Act::FailsToWrite => sink.write(b"x").is_err(),
            Act::Shuts(_) => {
                sink.shut();
                true
            }
            _ => false,
        }
    }
}

// Bytes for pieces of any length up to theirs.
const MANY: [u8; 40_000] = [1; 40_000];

fn reads<S: Source>(source: &mut S, bytes: &[u8]) -> bool {
    let mut room = [0u8; 4];
    match source.read(&mut room) {
        Ok(count) => &room[..count] == bytes,
        Err(_) => false,
    }
}

fn writes<S: Sink>(sink: &mut S, piece: &[u8], taken: usize) -> bool {
    sink.write(piece) == Ok(taken)
}

fn drop_half<I: Drop, O: Drop>(leg: &mut Leg<I, O>, half: Half) {
    match half {
        Half::Source => leg.source = None,
        Half::Sink => leg.sink = None,
    }
}

/// Writes to a leg until a write fails, and shuts its sink. Answers how many bytes went.
pub fn fill<I: Drop, O: ShutSink + Drop>(leg: &mut Leg<I, O>) -> usize {
    match &mut leg.sink {
        Some(sink) => fill_sink(sink),
        None => 0,
    }
}

fn fill_sink<O: ShutSink>(sink: &mut O) -> usize {
    let mut sum = 0usize;
    for _ in 0..u64::MAX {
        let Ok(count) = sink.write(&MANY) else {
            break;
        };
        sum = sum.saturating_add(count);
    }
    sink.shut();
    sum
}

/// Reads a leg to its end. Answers how many bytes came.
pub fn drain<I: Source + Drop, O: Drop>(leg: &mut Leg<I, O>) -> usize {
    match &mut leg.source {
        Some(source) => drain_source(source),
        None => 0,
    }
}

fn drain_source<I: Source>(source: &mut I) -> usize {
    let mut room = [0u8; 10_000];
    let mut sum = 0usize;
    for _ in 0..u64::MAX {
        match source.read(&mut room) {
            Ok(0) | Err(_) => break,
            Ok(count) => sum = sum.saturating_add(count),
        }
    }
    sum
}
