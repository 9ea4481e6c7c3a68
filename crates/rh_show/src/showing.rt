//! Shows a packet in one line.

ghost use Rattle.std.specs.Prelude.{◌≡◌, ◌++◌, ◌∷◌, [], List, ℕ, string_bytes};
ghost use Rattle.rh_pdu.specs.Header.{header_of};
ghost use Rattle.rh_pdu.specs.Frames.{IsPdu};
ghost use Rattle.rh_text.specs.Writing.{Writes};
ghost use Rattle.rh_text.specs.declared.lines.TheConstants.{LINE_FEED};
ghost use Rattle.rh_show.specs.Shown.{RtsText, ShownAs, pdu_text};

use crate::commands::write_packet;
use rh_pdu::header::{HEADER_LEN, PTYPE_AT, RTS};
use rh_pdu::{Header, check, write_pdu_fault};
use rh_rts::view;
use rh_text::{Part, write_parts};
use std::alloc::AllocError;

/// Appends an RTS packet, or the first part that is wrong.
fn write_rts(bytes: &[u8], out: &mut String) -> Result<(), AllocError>
    ensures { (text : List ℕ) × RtsText bytes.now text
        × Writes text result (string_bytes out.old) (string_bytes out.new) }
{
    match view(bytes) {
        Ok(packet) => write_packet(&packet, out),
        Err(fault) => fault.write(out),
    }
}

/// The header of a PDU with which nothing is wrong.
pub fn read_header(bytes: &[u8]) -> Header
    requires { IsPdu bytes.now }
    ensures { result ≡ header_of bytes.now }
{
    let Some(head) = bytes.first_chunk::<HEADER_LEN>() else {
        unreachable!()
    };
    let Ok(header) = Header::read(head) else {
        unreachable!()
    };
    header
}

/// Appends the fields of a PDU's header, or what is wrong with the PDU first.
fn write_pdu(bytes: &[u8], out: &mut String) -> Result<(), AllocError>
    ensures { Writes (pdu_text bytes.now) result (string_bytes out.old) (string_bytes out.new) }
{
    if let Err(fault) = check(bytes) {
        out.push_str("fault ")?;
        return write_pdu_fault(fault, out);
    }
    let header = read_header(bytes);
    let ptype = Part::Number(u64::from(header.ptype));
    let frag = Part::Number(u64::from(header.frag));
    let call = Part::Number(u64::from(header.call));
    let space = Part::Text(" ");
    write_parts(&[Part::Text("rpc "), ptype, space, frag, space, call], out)
}

/// Appends the text that tells the bytes.
fn write_shown(bytes: &[u8], out: &mut String) -> Result<(), AllocError>
    ensures { (text : List ℕ) × ShownAs bytes.now text
        × Writes text result (string_bytes out.old) (string_bytes out.new) }
{
    if bytes.len() >= HEADER_LEN && bytes[PTYPE_AT] == RTS {
        write_rts(bytes, out)
    } else {
        write_pdu(bytes, out)
    }
}

/// Appends the one line that tells the bytes, with LF at its end.
///
/// An RTS packet, which has a whole header of PTYPE 20, is told with its flags and each command
/// with its values, or by its first fault and the fault's place (MS-RPCH 2.2.3.6). Any other PDU is
/// told with its PTYPE, frag_length and call_id, or by its fault (C706 12.6.3.1).
///
/// Fails where there is no memory; a front of the line may stand in `out` then, and nothing else.
pub fn show_packet(bytes: &[u8], out: &mut String) -> Result<(), AllocError>
    ensures { (line : List ℕ) × ShownAs bytes.now line
        × Writes (line ++ LINE_FEED ∷ []) result (string_bytes out.old) (string_bytes out.new) }
{
    write_shown(bytes, out)?;
    out.push_str("\n")
}
