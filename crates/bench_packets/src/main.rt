//! Reads RTS packets from standard input, one behind the other, and prints how many bytes and
//! commands there were. With the word `read` no command is counted; with `view` each packet is
//! viewed; with `recode` each is decoded and encoded again, and must be the same bytes.
//! `bench/packets.py` measures it.
#![tactic(auto)]

ghost use Rattle.std.specs.Prelude.{◌<◌, length, IfSome};

use rh_io::{ReaderSource, read_whole};
use rh_rts::{decode, encode, view};
use std::alloc::Global;
use std::env;
use std::process::ExitCode;

/// The most bytes of input, 256 MiB.
const MOST_INPUT: usize = 268_435_456;
/// The length of a packet's header, in bytes.
const HEADER_LEN: usize = 20;
/// The room for the longest packet, in bytes.
const ROOM: usize = 65_535;

/// What is done with each packet.
#[derive(Clone, Copy)]
enum Work {
    Read,
    View,
    Recode,
}

/// The work that a word asks for.
fn work_of(word: &str) -> Option<Work> {
    match word {
        "read" => Some(Work::Read),
        "view" => Some(Work::View),
        "recode" => Some(Work::Recode),
        _ => None,
    }
}

/// The packet in front, as long as its header says, and what stands behind it.
fn split_packet(bytes: &[u8]) -> Option<(&[u8], &[u8])>
    ensures { IfSome result (λ found. length found.1.now < length bytes.now) }
{
    if bytes.len() < HEADER_LEN {
        return None;
    }
    let len = usize::from(u16::from_le_bytes([bytes[8], bytes[9]]));
    if len < HEADER_LEN || bytes.len() < len {
        return None;
    }
    Some(bytes.split_at(len))
}

/// How many commands the packet has; `None` where the bytes are none.
fn viewed(bytes: &[u8]) -> Option<u64> {
    let packet = view(bytes).ok()?;
    let mut commands: u64 = 0;
    for _ in packet.commands() {
        commands = commands.saturating_add(1);
    }
    Some(commands)
}

/// How many commands the packet has; `None` where the bytes are none, or aren't written again.
fn recoded(alloc: Global, bytes: &[u8], room: &mut [u8; ROOM]) -> Option<u64> {
    let packet = decode(alloc, bytes).ok()?;
    encode(&packet, room).ok()?;
    if !room.starts_with(bytes) {
        return None;
    }
    Some(packet.commands().len() as u64)
}

/// How many commands the packets have; `None` where one is none.
fn work_through(alloc: Global, bytes: &[u8], work: Work) -> Option<u64> {
    let mut room = [0; ROOM];
    let mut rest = bytes;
    let mut commands: u64 = 0;
    'packets: while !rest.is_empty() {
        let (packet, behind) = split_packet(rest)?;
        let more = match work {
            Work::Read => 0,
            Work::View => viewed(packet)?,
            Work::Recode => recoded(alloc, packet, &mut room)?,
        };
        commands = commands.saturating_add(more);
        rest = behind;
    }
    Some(commands)
}

/// The work that the first word asks for.
fn asked(rt: &HostRuntime) -> Option<Work> {
    let word = env::args(rt).ok()?.nth(1)?;
    work_of(word.as_str())
}

fn main(rt: HostRuntime) -> ExitCode {
    let Some(work) = asked(&rt) else {
        let _ = eprintln!(rt; "give one word: read, view or recode");
        return ExitCode::from(1);
    };
    let mut input = ReaderSource::new(rt.stdin());
    let Ok(bytes) = read_whole(rt.alloc(), &mut input, MOST_INPUT) else {
        let _ = eprintln!(rt; "the input was not read");
        return ExitCode::from(1);
    };
    let Some(commands) = work_through(rt.alloc(), &bytes, work) else {
        let _ = eprintln!(rt;
            "the input is not packets one behind the other, or there was no memory"
        );
        return ExitCode::from(1);
    };
    let len = bytes.len();
    let _ = println!(rt; "{len} bytes, {commands} commands");
    ExitCode::from(0)
}
