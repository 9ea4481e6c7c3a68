//! RTS packets: `read`, what their bytes say by both readers; `again`, how they are written by both
//! writers; `commands`, the names of their commands.

use crate::spelling::{tell, tell_same};
use rh_rts::{
    CommandRef, DecodeFault, NoRoom, Packet, RtsFault, View, decode, encode, encode_parts, view,
};
use std::alloc::{AllocError, Global};

/// How many bytes the room for a packet has.
const ROOM: usize = 400;

/// Appends the flags and the commands.
fn tell_view(seen: &View<'_>, out: &mut String) -> Result<(), AllocError> {
    tell(seen.flags(), out)?;
    for command in seen.commands() {
        out.push_str(" ")?;
        tell(command, out)?;
    }
    Ok(())
}

/// Whether a packet has the flags and the commands that were seen.
fn is_seen(packet: &Packet, seen: &View<'_>) -> bool {
    let mut commands = packet.commands().iter();
    for command in seen.commands() {
        let same = commands.next().is_some_and(|own| own.borrowed() == command);
        if !same {
            return false;
        }
    }
    commands.next().is_none() && packet.flags() == seen.flags()
}

/// Appends what the bytes say, and where the other reader says something else, that.
fn tell_packet(
    seen: &View<'_>,
    decoded: Result<Packet, DecodeFault>,
    out: &mut String,
) -> Result<(), AllocError> {
    tell_view(seen, out)?;
    match decoded {
        Ok(packet) if is_seen(&packet, seen) => Ok(()),
        Ok(packet) => {
            out.push_str(" but ")?;
            tell(packet.flags(), out)
        }
        Err(fault) => {
            out.push_str(" but ")?;
            tell(fault, out)
        }
    }
}

/// Appends the fault, and where the other reader tells another, that.
fn tell_fault(
    fault: RtsFault,
    decoded: Result<Packet, DecodeFault>,
    out: &mut String,
) -> Result<(), AllocError> {
    fault.write(out)?;
    let RtsFault { place, kind } = fault;
    if decoded.err() != Some(DecodeFault::Rts { place, kind }) {
        out.push_str(" but the other reader has another")?;
    }
    Ok(())
}

fn read(alloc: Global, bytes: &[u8], out: &mut String) -> Result<(), AllocError> {
    let decoded = decode(alloc, bytes);
    match view(bytes) {
        Ok(seen) => tell_packet(&seen, decoded, out),
        Err(fault) => tell_fault(fault, decoded, out),
    }
}

/// Appends the answer of a writer, and whether the room has the bytes and nothing behind them.
pub fn tell_written(
    written: Result<usize, NoRoom>,
    room: &[u8],
    bytes: &[u8],
    out: &mut String,
) -> Result<(), AllocError> {
    tell(written, out)?;
    let (front, behind) = room.split_at(bytes.len().min(room.len()));
    tell_same(front, bytes, out)?;
    if behind.iter().any(|byte| *byte != 0xee) {
        out.push_str(" and more")?;
    }
    Ok(())
}

/// Writes the packet by its flags and commands.
fn encode_its_parts(packet: &Packet, room: &mut [u8]) -> Result<usize, NoRoom> {
    encode_parts(packet.flags(), packet.commands(), room)
}

/// Appends what comes of writing into a room that is one byte too short.
fn tell_short(packet: &Packet, len: usize, out: &mut String) -> Result<(), AllocError> {
    let mut room = [0xee; ROOM];
    let (short, _) = room.split_at_mut(len.min(ROOM));
    out.push_str("; short ")?;
    tell(encode(packet, short), out)?;
    out.push_str(" ")?;
    tell(encode_its_parts(packet, short), out)?;
    if room.iter().any(|byte| *byte != 0xee) {
        out.push_str(" and bytes")?;
    }
    Ok(())
}

/// Appends how the packet that the bytes are is written.
fn again(alloc: Global, bytes: &[u8], out: &mut String) -> Result<(), AllocError> {
    let Ok(packet) = decode(alloc, bytes) else {
        return out.push_str("?");
    };
    let mut room = [0xee; ROOM];
    let written = encode(&packet, &mut room);
    tell_written(written, &room, bytes, out)?;
    out.push_str("; parts ")?;
    let mut room = [0xee; ROOM];
    let written = encode_its_parts(&packet, &mut room);
    tell_written(written, &room, bytes, out)?;
    tell_short(&packet, bytes.len().saturating_sub(1), out)
}

/// Appends the names of the commands.
fn commands(bytes: &[u8], out: &mut String) -> Result<(), AllocError> {
    let Ok(seen) = view(bytes) else {
        return out.push_str("?");
    };
    for command in seen.commands() {
        out.push_str(CommandRef::name(&command))?;
        out.push_str(" ")?;
    }
    out.push_str("end")
}

/// Answers a call.
pub fn call(alloc: Global, call: &str, bytes: &[u8], out: &mut String) -> Result<(), AllocError> {
    match call {
        "read" => read(alloc, bytes, out),
        "again" => again(alloc, bytes, out),
        "commands" => commands(bytes, out),
        _ => out.push_str("?"),
    }
}
