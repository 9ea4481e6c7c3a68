//! Packets as they are shown, `packet`, and lines of hex, `reads`.

use crate::spelling::tell;
use rh_show::{LineReader, show_packet};
use rh_text::write_hex;
use std::alloc::{AllocError, Global};

/// The most bytes that are told.
const MOST_TOLD: usize = 100;

/// Appends the bytes of the line, or how many there are.
fn reads(reader: &mut LineReader, line: &[u8], out: &mut String) -> Result<(), AllocError> {
    match reader.read(line) {
        None => out.push_str("none"),
        Some(bytes) if bytes.len() > MOST_TOLD => tell(bytes.len(), out),
        Some(bytes) => write_hex(bytes, out),
    }
}

/// Appends the packet's line, without its LF.
fn packet(alloc: Global, bytes: &[u8], out: &mut String) -> Result<(), AllocError> {
    let mut told = String::new(alloc);
    told.push_str("before\n")?;
    show_packet(bytes, &mut told)?;
    let line = told.as_str().strip_prefix("before\n");
    match line.and_then(|line| line.strip_suffix('\n')) {
        Some(line) => out.push_str(line),
        None => out.push_str("?"),
    }
}

/// Answers a call.
pub fn call(
    alloc: Global,
    reader: &mut LineReader,
    call: &str,
    bytes: &[u8],
    out: &mut String,
) -> Result<(), AllocError> {
    match call {
        "packet" => packet(alloc, bytes, out),
        "reads" => reads(reader, bytes, out),
        _ => out.push_str("?"),
    }
}
