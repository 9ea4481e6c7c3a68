//! What packets are called: `packet`, of bytes on any leg; `line`, of a line that may tell the leg.

use rh_name::{name_packet, split_pipe, write_named};
use rh_show::LineReader;
use std::alloc::{AllocError, Global};

/// Appends what the packet is called, without the LF behind it.
fn packet(alloc: Global, bytes: &[u8], out: &mut String) -> Result<(), AllocError> {
    let mut told = String::new(alloc);
    told.push_str("before\n")?;
    name_packet(None, bytes, &mut told)?;
    let line = told.as_str().strip_prefix("before\n");
    match line.and_then(|line| line.strip_suffix('\n')) {
        Some(line) => out.push_str(line),
        None => out.push_str("?"),
    }
}

/// Appends what the packet of the line is called.
fn line(reader: &mut LineReader, line: &[u8], out: &mut String) -> Result<(), AllocError> {
    let (pipe, hex) = split_pipe(line);
    match reader.read(hex) {
        None => out.push_str("none"),
        Some(bytes) => write_named(pipe, bytes, out),
    }
}

/// Answers a call.
pub fn call(
    alloc: Global,
    reader: &mut LineReader,
    call: &str,
    bytes: &[u8],
    out: &mut String,
) -> Result<(), AllocError> {
    match call {
        "packet" => packet(alloc, bytes, out),
        "line" => line(reader, bytes, out),
        _ => out.push_str("?"),
    }
}
