//! Tells a packet in one line.

ghost use Rattle.std.specs.Prelude.{◌≡◌, ◌++◌, ◌∷◌, [], string_bytes};
ghost use Rattle.rh_text.specs.Writing.{Writes};
ghost use Rattle.rh_text.specs.declared.lines.TheConstants.{LINE_FEED};
ghost use Rattle.rh_name.specs.Telling as seen;

use crate::fields::{write_fields, write_unnamed};
use crate::pdus::write_pdu;
use crate::places::names_of;
use crate::words::{name_word, push};
use rh_pdu::header::{HEADER_LEN, PTYPE_AT, RTS};
use rh_rts::{RtsFault, View, view};
use rh_sig::{Name, Pipe};
use rh_text::{Part, write_parts};
use std::alloc::AllocError;

/// Appends the further names of a packet.
fn write_others(names: &[Name], out: &mut String) -> Result<(), AllocError>
    ensures { Writes (seen.others_text names.now) result
        (string_bytes out.old) (string_bytes out.new) }
{
    'names: for name in names {
        write_parts(&[Part::Text(" or "), Part::Text(name_word(*name))], out)?;
    }
    Ok(())
}

/// Appends what stands behind the first name of a packet: its other names, and its fields.
fn write_behind(
    name: Name,
    others: &[Name],
    packet: &View<'_>,
    out: &mut String,
) -> Result<(), AllocError>
    ensures { Writes (seen.named_text (name ∷ others.now) packet.now) result
        (string_bytes out.old) (string_bytes out.new) }
{
    push(name_word(name), out)?;
    write_others(others, out)?;
    write_fields(name, packet, out)
}

/// Appends what the packet is called by these names, and its fields.
fn write_by(names: &[Name], packet: &View<'_>, out: &mut String) -> Result<(), AllocError>
    ensures { Writes (seen.named_text names.now packet.now) result
        (string_bytes out.old) (string_bytes out.new) }
{
    match names {
        [] => write_unnamed(packet, out),
        [name, others @ ..] => write_behind(*name, others, packet, out),
    }
}

/// Appends what is wrong with bytes that are to be a packet.
fn write_fault(wrong: RtsFault, out: &mut String) -> Result<(), AllocError>
    ensures { Writes (seen.bad_text wrong) result (string_bytes out.old) (string_bytes out.new) }
{
    let (kind, place) = (
        Part::Text(wrong.kind.name()),
        Part::Number(wrong.place as u64),
    );
    write_parts(&[Part::Text("bad "), kind, Part::Text(" "), place], out)
}

/// Appends what an RTS packet is called on that pipe, or the first part that is wrong.
fn write_rts(pipe: Option<Pipe>, bytes: &[u8], out: &mut String) -> Result<(), AllocError>
    ensures { Writes (seen.rts_told pipe bytes.now) result
        (string_bytes out.old) (string_bytes out.new) }
{
    match view(bytes) {
        Ok(packet) => write_by(names_of(&packet, pipe).as_slice(), &packet, out),
        Err(wrong) => write_fault(wrong, out),
    }
}

/// Whether the bytes have a whole header of the kind of RTS packets.
pub fn is_rts(bytes: &[u8]) -> bool
    ensures { result ≡ seen.is_rts bytes.now }
{
    bytes.len() >= HEADER_LEN && bytes[PTYPE_AT] == RTS
}

/// Appends what the bytes are called that stand on that pipe; on any one where none is told.
///
/// An RTS packet, which has a whole header of PTYPE 20, has its name on that pipe, or all names
/// that it has on some pipe, and its fields (MS-RPCH 2.2.4); where it has none, its flags and
/// commands are told. Any other PDU is told with its kind, call id, lengths and flags (C706
/// 12.6.3.1). Where the bytes are neither, the first fault is told.
///
/// Fails where there is no memory; a front of the text may stand in `out` then, and nothing else.
#[tactic(auto, unfolding(crate::specs::Telling::told))]
pub fn write_named(pipe: Option<Pipe>, bytes: &[u8], out: &mut String) -> Result<(), AllocError>
    ensures { Writes (seen.told pipe bytes.now) result
        (string_bytes out.old) (string_bytes out.new) }
{
    if is_rts(bytes) {
        write_rts(pipe, bytes, out)
    } else {
        write_pdu(bytes, out)
    }
}

/// Appends the one line that tells what the bytes are called, with LF at its end.
///
/// Fails where there is no memory; a front of the line may stand in `out` then, and nothing else.
pub fn name_packet(pipe: Option<Pipe>, bytes: &[u8], out: &mut String) -> Result<(), AllocError>
    ensures { Writes (seen.told pipe bytes.now ++ LINE_FEED ∷ []) result
        (string_bytes out.old) (string_bytes out.new) }
{
    write_named(pipe, bytes, out)?;
    out.push_str("\n")
}
