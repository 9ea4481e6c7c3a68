//! Calls, one on each line.

use crate::keep::Keep;
use crate::numbers::text_of;
use crate::queues::Queue;
use crate::spelling::{Around, tell_characters};
use crate::windows::Windows;
use crate::{called, heads, lines, names, packets, pdus, records, shows, texts};
use rh_line::RecvLine;
use rh_pdu::Framer;
use rh_show::LineReader;
use rh_text::split_line;
use std::alloc::{AllocError, Global};

/// What the calls left.
#[derive(Drop)]
struct Left {
    around: Around,
    framer: Framer,
    windows: Windows,
    keep: Keep,
    line: RecvLine,
    queue: Queue,
    reader: LineReader,
}

fn nothing_left(alloc: Global) -> Result<Left, AllocError> {
    Ok(Left {
        around: Around::new(alloc),
        framer: Framer::new(),
        windows: Windows::new(),
        keep: Keep::new(),
        line: RecvLine::new(alloc, 8_192)?,
        queue: Queue::new(alloc)?,
        reader: LineReader::new(alloc)?,
    })
}

/// Calls that change nothing but what is theirs.
fn on_values(
    left: &mut Left,
    family: &str,
    call: &str,
    text: &[u8],
    out: &mut String,
) -> Result<(), AllocError> {
    match family {
        "window" => left.windows.call(call, text, out),
        "keep" => left.keep.call(call, text, out),
        _ => out.push_str("?"),
    }
}

/// Calls of lines, which hold PDUs.
fn on_lines(
    alloc: Global,
    left: &mut Left,
    family: &str,
    call: &str,
    text: &[u8],
    out: &mut String,
) -> Result<(), AllocError> {
    match family {
        "line" => lines::call(alloc, &mut left.line, &left.around, call, text, out),
        "queue" => left.queue.call(alloc, &left.around, call, text, out),
        "bytes" => left.around.call(alloc, call, text),
        "text" => texts::call(alloc, &left.around, call, text, out),
        _ => on_values(left, family, call, text, out),
    }
}

/// Calls that need nothing but bytes.
fn on_bytes(
    alloc: Global,
    left: &mut Left,
    family: &str,
    call: &str,
    text: &[u8],
    out: &mut String,
) -> Result<(), AllocError> {
    match family {
        "pdu" => {
            let bytes = left.around.bytes(alloc, text)?;
            pdus::call(&mut left.framer, call, &bytes, out)
        }
        "packet" => packets::call(alloc, call, &left.around.bytes(alloc, text)?, out),
        "show" => {
            let bytes = left.around.bytes(alloc, text)?;
            shows::call(alloc, &mut left.reader, call, &bytes, out)
        }
        "record" => records::call(alloc, call, &left.around.bytes(alloc, text)?, out),
        "name" => names::call(alloc, call, &left.around.bytes(alloc, text)?, out),
        "called" => {
            let bytes = left.around.bytes(alloc, text)?;
            called::call(alloc, &mut left.reader, call, &bytes, out)
        }
        "head" => heads::call(alloc, &left.around, call, text, out),
        _ => on_lines(alloc, left, family, call, text, out),
    }
}

fn on_line(
    alloc: Global,
    left: &mut Left,
    line: &[u8],
    out: &mut String,
) -> Result<(), AllocError> {
    let (family, rest) = text_of(line);
    if let "" | "#" = family {
        return tell_characters(line, out);
    }
    let (call, text) = text_of(rest);
    on_bytes(alloc, left, family, call, text, out)
}

/// The answer to each line, on a line of its own.
pub fn answers(alloc: Global, calls: &[u8]) -> Result<String, AllocError> {
    let mut out = String::new(alloc);
    let mut left = nothing_left(alloc)?;
    let mut rest = calls;
    for _ in 0..calls.len() {
        if rest.is_empty() {
            break;
        }
        let (line, behind) = split_line(rest);
        on_line(alloc, &mut left, line, &mut out)?;
        out.push_str("\n")?;
        rest = behind;
    }
    Ok(out)
}
