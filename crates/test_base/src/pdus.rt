//! Headers, PDUs and framers: `check`, and `say`, the text of its fault; `header`; `framer` begins a
//! stream, to which `feed` and `each`, byte by byte, put bytes, and `frame` and `held` tell what it
//! has.

use crate::spelling::{say, tell};
use rh_pdu::{Feed, Framer, Header, check, write_pdu_fault};
use rh_text::write_hex;
use std::alloc::AllocError;

/// Appends the first fault of a PDU.
fn checked(bytes: &[u8], out: &mut String) -> Result<(), AllocError> {
    match check(bytes) {
        Ok(()) => out.push_str("sound"),
        Err(fault) => write_pdu_fault(fault, out),
    }
}

/// Appends the text of the first fault of a PDU.
fn said(bytes: &[u8], out: &mut String) -> Result<(), AllocError> {
    match check(bytes) {
        Ok(()) => out.push_str("sound"),
        Err(fault) => say(fault, out),
    }
}

/// Appends what the header says.
fn header(bytes: &[u8], out: &mut String) -> Result<(), AllocError> {
    match bytes.first_chunk::<16>() {
        Some(header) => tell(Header::read(header), out),
        None => out.push_str("?"),
    }
}

/// Feeds byte by byte, and appends each answer but that more are needed, with the byte's number.
fn each(framer: &mut Framer, bytes: &[u8], out: &mut String) -> Result<(), AllocError> {
    let mut place = 0u64;
    for byte in bytes {
        let fed = framer.feed(&[*byte]);
        if fed != Feed::Need {
            tell(place, out)?;
            out.push_str(" ")?;
            tell(fed, out)?;
            out.push_str("; ")?;
        }
        place = place.saturating_add(1);
    }
    out.push_str("end")
}

/// Answers a call.
pub fn call(
    framer: &mut Framer,
    call: &str,
    bytes: &[u8],
    out: &mut String,
) -> Result<(), AllocError> {
    match call {
        "check" => checked(bytes, out),
        "say" => said(bytes, out),
        "header" => header(bytes, out),
        "framer" => {
            *framer = Framer::new();
            Ok(())
        }
        "feed" => tell(framer.feed(bytes), out),
        "each" => each(framer, bytes, out),
        "frame" => write_hex(framer.frame(), out),
        "held" => tell(framer.held(), out),
        _ => out.push_str("?"),
    }
}
