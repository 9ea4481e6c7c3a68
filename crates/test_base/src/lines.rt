//! The line of a receiver: `new` begins one, with `admit`, `take`, `end`, `due`, `told`, `next`,
//! `finish` and `has-next`.

use crate::numbers::{long_of, word_of};
use crate::spelling::{Around, tell, tell_same};
use rh_line::{LineTake, RecvLine, Which};
use rh_pdu::check;
use std::alloc::{AllocError, Global};

/// Appends the answer to a PDU that comes on a channel.
fn admit(
    line: &mut RecvLine,
    channel: Which,
    pdu: &[u8],
    out: &mut String,
) -> Result<(), AllocError> {
    if check(pdu).is_err() {
        return out.push_str("no PDU");
    }
    if channel == Which::Next && !line.has_next() {
        return out.push_str("no channel");
    }
    tell(line.admit(channel, pdu), out)
}

/// Appends what is taken: its length as told before, and whether it is the PDU and nothing more
/// stands in the room.
fn take(line: &mut RecvLine, pdu: &[u8], out: &mut String) -> Result<(), AllocError> {
    let mut room = [0x77; 8192];
    tell(line.front(), out)?;
    out.push_str(" ")?;
    let taken = line.take(&mut room);
    tell(taken, out)?;
    if taken == LineTake::Empty && line.is_over(Which::Current) {
        out.push_str(" and over")?;
    }
    let (front, behind) = room.split_at(pdu.len().min(8192));
    tell_same(front, pdu, out)?;
    if behind.iter().any(|byte| *byte != 0x77) {
        out.push_str(" and more")?;
    }
    Ok(())
}

fn end(line: &mut RecvLine, channel: Which, out: &mut String) -> Result<(), AllocError> {
    if channel == Which::Next && !line.has_next() {
        return out.push_str("no channel");
    }
    line.end(channel);
    Ok(())
}

fn due(line: &RecvLine, channel: Which, out: &mut String) -> Result<(), AllocError> {
    if channel == Which::Next && !line.has_next() {
        return out.push_str("no channel");
    }
    tell(line.due(channel), out)
}

/// Appends what is due on the current channel, which is told.
fn told(line: &mut RecvLine, out: &mut String) -> Result<(), AllocError> {
    let due = line.due(Which::Current);
    if let Some(ack) = due {
        line.told(Which::Current, &ack);
    }
    tell(due, out)
}

/// Opens the next channel, whose window is open, shut, or shut and told.
fn open(line: &mut RecvLine, text: &[u8], out: &mut String) -> Result<(), AllocError> {
    if line.has_next() {
        return out.push_str("no room");
    }
    match text {
        b"open" => line.open_next(false),
        b"shut" => line.open_next(true),
        _ => {
            line.open_next(true);
            line.tell(Which::Next);
        }
    }
    tell(line.has_next(), out)
}

fn finish(line: &mut RecvLine, out: &mut String) -> Result<(), AllocError> {
    if !line.has_next() {
        return out.push_str("no channel");
    }
    line.finish();
    Ok(())
}

/// An empty line of this window.
fn begin(alloc: Global, line: &mut RecvLine, text: &[u8]) -> Result<(), AllocError> {
    let (size, _) = long_of(text);
    if 8_192 <= size && size <= 262_144 {
        *line = RecvLine::new(alloc, size)?;
    }
    Ok(())
}

fn channel_of(word: &[u8]) -> Which {
    match word {
        b"next" => Which::Next,
        _ => Which::Current,
    }
}

/// Calls that need no memory.
fn call_within(
    line: &mut RecvLine,
    call: &str,
    text: &[u8],
    out: &mut String,
) -> Result<(), AllocError> {
    match call {
        "end" => end(line, channel_of(text), out),
        "due" => due(line, channel_of(text), out),
        "told" => told(line, out),
        "next" => open(line, text, out),
        "finish" => finish(line, out),
        "has-next" => tell(line.has_next(), out),
        _ => out.push_str("?"),
    }
}

/// Answers a call.
pub fn call(
    alloc: Global,
    line: &mut RecvLine,
    around: &Around,
    call: &str,
    text: &[u8],
    out: &mut String,
) -> Result<(), AllocError> {
    match call {
        "new" => begin(alloc, line, text),
        "take" => take(line, &around.bytes(alloc, text)?, out),
        "admit" => {
            let (word, spelled) = word_of(text);
            admit(line, channel_of(word), &around.bytes(alloc, spelled)?, out)
        }
        _ => call_within(line, call, text, out),
    }
}
