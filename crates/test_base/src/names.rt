//! The names of packets: `pipes`, their names and values on all pipes; `writes`, how these values
//! are written; `padded`, what padding changes; `cookie`, the text of one.

use crate::packets::tell_written;
use crate::spelling::{tell, tell_characters};
use rh_rts::{Bytes, Command, Cookie, Packet, View, decode, encode, view};
use rh_sig::{
    COOKIE_TEXT_LEN, Name, Named, Pipe, SigFault, cookie_text, name_of, read_named, write_named,
};
use std::alloc::{AllocError, Global};

const PIPES: [Pipe; 7] = [
    Pipe::CiU,
    Pipe::IsU,
    Pipe::IsD,
    Pipe::CoU,
    Pipe::CoD,
    Pipe::OsU,
    Pipe::OsD,
];

/// How many bytes the room for a packet has.
const ROOM: usize = 400;

/// Appends the name and the value on a pipe; nothing where it has none.
fn tell_pipe(
    pipe: Pipe,
    name: Option<Name>,
    named: Result<Named, SigFault>,
    out: &mut String,
) -> Result<(), AllocError> {
    if name.is_none() && named == Err(SigFault::Unknown) {
        return Ok(());
    }
    tell(pipe, out)?;
    out.push_str(" ")?;
    tell(name, out)?;
    out.push_str(" ")?;
    tell(named, out)?;
    out.push_str("; ")
}

/// Appends the names and the values on all pipes.
fn tell_pipes(seen: &View<'_>, out: &mut String) -> Result<(), AllocError> {
    for pipe in PIPES {
        tell_pipe(pipe, name_of(seen, pipe), read_named(seen, pipe), out)?;
    }
    out.push_str("end")
}

fn pipes(bytes: &[u8], out: &mut String) -> Result<(), AllocError> {
    match view(bytes) {
        Ok(seen) => tell_pipes(&seen, out),
        Err(fault) => fault.write(out),
    }
}

/// Appends how the value on a pipe is written, whole and into a room that is one byte too short.
fn tell_value(named: Named, bytes: &[u8], out: &mut String) -> Result<(), AllocError> {
    if !named.may_be_written() {
        return out.push_str("may not be written");
    }
    let mut room = [0xee; ROOM];
    let written = write_named(&named, &mut room);
    tell_written(written, &room, bytes, out)?;
    let mut room = [0xee; ROOM];
    let short = bytes.len().saturating_sub(1).min(ROOM);
    out.push_str("; short ")?;
    tell(write_named(&named, &mut room[..short]), out)?;
    if room.iter().any(|byte| *byte != 0xee) {
        out.push_str(" and bytes")?;
    }
    Ok(())
}

/// Appends how the value is written on each pipe that gives the bytes one.
fn writes(bytes: &[u8], out: &mut String) -> Result<(), AllocError> {
    let Ok(seen) = view(bytes) else {
        return out.push_str("?");
    };
    for pipe in PIPES {
        if let Ok(named) = read_named(&seen, pipe) {
            tell_value(named, bytes, out)?;
            out.push_str("; ")?;
        }
    }
    out.push_str("end")
}

/// The packet with padding before the command at this place, or before each; at a place behind the
/// last command or before each, also behind all.
fn with_padding(
    alloc: Global,
    packet: Packet,
    place: Option<usize>,
) -> Result<Option<Packet>, AllocError> {
    let flags = packet.flags();
    let mut commands = Vec::new(alloc);
    let mut at = 0usize;
    for command in packet.into_commands() {
        if place.is_none_or(|place| place == at) {
            commands.push(Command::Padding(Bytes::new(vec![in alloc; 9; at]?)))?;
        }
        commands.push(command)?;
        at = at.saturating_add(1);
    }
    if place.is_none_or(|place| place >= at) {
        commands.push(Command::Padding(Bytes::new(vec![in alloc; 7, 8]?)))?;
    }
    Ok(Packet::new(alloc, flags, &commands).ok())
}

/// Appends the names and the values of the packet with padding.
fn tell_padded(
    alloc: Global,
    bytes: &[u8],
    place: Option<usize>,
    out: &mut String,
) -> Result<(), AllocError> {
    let Ok(packet) = decode(alloc, bytes) else {
        return out.push_str("?");
    };
    let Some(packet) = with_padding(alloc, packet, place)? else {
        return out.push_str("no packet");
    };
    let mut room = [0; ROOM];
    match encode(&packet, &mut room) {
        Ok(len) => pipes(&room[..len.min(ROOM)], out),
        Err(_) => out.push_str("no room"),
    }
}

/// Appends where padding changes names or values: at this place, or before each.
fn tell_change(
    alloc: Global,
    bytes: &[u8],
    place: Option<usize>,
    plain: &str,
    out: &mut String,
) -> Result<(), AllocError> {
    let mut padded = String::new(alloc);
    tell_padded(alloc, bytes, place, &mut padded)?;
    if padded.as_str() != plain {
        tell(place, out)?;
        out.push_str(" ")?;
        out.push_str(padded.as_str())?;
    }
    Ok(())
}

/// Appends where padding changes names or values: at each of 8 places, and before each command.
fn padded(alloc: Global, bytes: &[u8], out: &mut String) -> Result<(), AllocError> {
    let mut plain = String::new(alloc);
    pipes(bytes, &mut plain)?;
    for place in 0..8 {
        tell_change(alloc, bytes, Some(place), plain.as_str(), out)?;
    }
    tell_change(alloc, bytes, None, plain.as_str(), out)?;
    out.push_str("end")
}

/// Appends the text of the cookie.
fn cookie(bytes: &[u8], out: &mut String) -> Result<(), AllocError> {
    let Some(cookie) = bytes.first_chunk::<16>() else {
        return out.push_str("?");
    };
    let mut room = [0; COOKIE_TEXT_LEN];
    cookie_text(&Cookie(*cookie), &mut room);
    tell_characters(&room, out)
}

/// Answers a call.
pub fn call(alloc: Global, call: &str, bytes: &[u8], out: &mut String) -> Result<(), AllocError> {
    match call {
        "pipes" => pipes(bytes, out),
        "writes" => writes(bytes, out),
        "padded" => padded(alloc, bytes, out),
        "cookie" => cookie(bytes, out),
        _ => out.push_str("?"),
    }
}
