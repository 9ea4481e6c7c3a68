//! Tells an item of a stream.

ghost use Rattle.std.specs.Prelude.{◌≡◌, ◌≤◌, ◌<◌, ◌++◌, IsAscii, length, string_bytes};
ghost use Rattle.rh_rts.specs.Reading.{read_packet};
ghost use Rattle.rh_rts.specs.Showing.{shown};
ghost use Rattle.rh_sig.specs.Naming.{name_on};
ghost use Rattle.rh_name.specs.Words.{name_word};
ghost use Rattle.std.specs.List.{prefix_len};
ghost use Rattle.rh_text.specs.Writing.{Writes};
ghost use Rattle.rh_story.specs.Brief as seen;

use crate::items::is_framed;
use rh_name::{
    cookie_word, counted, is_rts, name_word, write_counts, write_kind, write_named,
    write_named_field, write_pdu,
};
use rh_pdu::{Header, check};
use rh_rts::{CommandRef, Cookie, View, view};
use rh_show::read_header;
use rh_sig::{Name, Pipe, name_of};
use rh_text::{Part, push_ascii, write_parts};
use std::alloc::AllocError;

// ---- RTS packets

/// Appends a word and the last four bytes of a cookie.
fn write_short(word: &'static str, cookie: Cookie, out: &mut String) -> Result<(), AllocError>
    ensures { Writes (word.now ++ seen.short_id cookie.0) result
        (string_bytes out.old) (string_bytes out.new) }
{
    let b = cookie.0;
    let last = [b[12], b[13], b[14], b[15]];
    let word = Part::Text(word);
    write_parts(&[word, Part::Text(" .."), Part::Hex(&last)], out)
}

/// Appends the fields of an acknowledgement.
fn write_ack(received: u32, window: u32, cookie: Cookie, out: &mut String) -> Result<(), AllocError>
    ensures { Writes (seen.ack_brief received window cookie.0) result
        (string_bytes out.old) (string_bytes out.new) }
{
    write_counts("", received, window, out)?;
    write_short(" channel", cookie, out)
}

/// Appends a field of a packet with this name, before which so many cookies stand.
fn write_field(
    name: Name,
    number: u8,
    command: CommandRef<'_>,
    out: &mut String,
) -> Result<(), AllocError>
    ensures { Writes (seen.brief_field name number (shown command.entry)) result
        (string_bytes out.old) (string_bytes out.new) }
{
    match command {
        CommandRef::Cookie(cookie) => write_short(cookie_word(name, number), cookie, out),
        CommandRef::AssociationGroupId(cookie) => write_short(" group", cookie, out),
        CommandRef::FlowControlAck {
            received,
            window,
            cookie,
        } => write_ack(received, window, cookie, out),
        CommandRef::ClientAddress { .. } => Ok(()),
        other => write_named_field(name, number, other, out),
    }
}

/// Appends the fields of a packet with this name.
fn write_fields(name: Name, packet: &View<'_>, out: &mut String) -> Result<(), AllocError>
    ensures { Writes (seen.brief_fields name 0 packet.now.commands) result
        (string_bytes out.old) (string_bytes out.new) }
{
    let mut number = 0;
    let mut commands = packet.commands();
    while let Some(command) = commands.next() {
        write_field(name, number, command, out)?;
        number = counted(number, command);
    }
    Ok(())
}

/// Appends the name of a packet.
fn write_name(name: Name, out: &mut String) -> Result<(), AllocError>
    ensures { Writes (name_word name) result (string_bytes out.old) (string_bytes out.new) }
{
    out.push_str(name_word(name))
}

/// Appends the name of a packet and its fields.
fn write_packet(name: Name, packet: &View<'_>, out: &mut String) -> Result<(), AllocError>
    ensures { Writes (seen.packet_text name packet.now) result
        (string_bytes out.old) (string_bytes out.new) }
{
    write_name(name, out)?;
    write_fields(name, packet, out)
}

/// Appends what a packet is called on the pipe, whose bytes these are.
fn write_viewed(
    pipe: Pipe,
    bytes: &[u8],
    packet: &View<'_>,
    out: &mut String,
) -> Result<(), AllocError>
    ensures { Writes (seen.named_brief pipe bytes.now packet.now (name_on packet.now pipe)) result
        (string_bytes out.old) (string_bytes out.new) }
{
    match name_of(packet, pipe) {
        Some(name) => write_packet(name, packet, out),
        None => write_named(Some(pipe), bytes, out),
    }
}

/// Appends what an RTS packet is called on the pipe.
fn write_rts_on(pipe: Pipe, bytes: &[u8], out: &mut String) -> Result<(), AllocError>
    ensures { Writes (seen.packet_brief pipe bytes.now (read_packet bytes.now)) result
        (string_bytes out.old) (string_bytes out.new) }
{
    match view(bytes) {
        Ok(packet) => write_viewed(pipe, bytes, &packet, out),
        Err(_) => write_named(Some(pipe), bytes, out),
    }
}

/// Appends what an RTS packet is called.
fn write_rts(pipe: Option<Pipe>, bytes: &[u8], out: &mut String) -> Result<(), AllocError>
    ensures { Writes (seen.rts_brief pipe bytes.now) result
        (string_bytes out.old) (string_bytes out.new) }
{
    match pipe {
        Some(pipe) => write_rts_on(pipe, bytes, out),
        None => write_named(None, bytes, out),
    }
}

// ---- other PDUs

/// Appends the call and the length of a PDU.
#[tactic(auto, unfolding(crate::specs::Brief::numbers_brief))]
fn write_numbers(header: &Header, out: &mut String) -> Result<(), AllocError>
    ensures { Writes (seen.numbers_brief header.now) result
        (string_bytes out.old) (string_bytes out.new) }
{
    let call = Part::Number(u64::from(header.call));
    let frag = Part::Number(u64::from(header.frag));
    write_parts(
        &[Part::Text(" call "), call, Part::Text(" length "), frag],
        out,
    )
}

/// Appends the kind, the call and the length of a PDU.
fn write_header(header: &Header, out: &mut String) -> Result<(), AllocError>
    ensures { Writes (seen.header_brief header.now) result
        (string_bytes out.old) (string_bytes out.new) }
{
    write_kind(header.ptype, out)?;
    write_numbers(header, out)
}

/// Appends what a PDU is, or what is wrong with it first.
fn write_brief_pdu(bytes: &[u8], out: &mut String) -> Result<(), AllocError>
    ensures { Writes (seen.pdu_brief bytes.now) result
        (string_bytes out.old) (string_bytes out.new) }
{
    match check(bytes) {
        Ok(()) => write_header(&read_header(bytes), out),
        Err(_) => write_pdu(bytes, out),
    }
}

/// Appends what a frame is on that pipe.
///
/// Fails where there is no memory; a front of the text may stand in `out` then, and nothing else.
#[tactic(auto, unfolding(crate::specs::Brief::frame_brief))]
pub(crate) fn write_frame(
    pipe: Option<Pipe>,
    bytes: &[u8],
    out: &mut String,
) -> Result<(), AllocError>
    ensures { Writes (seen.frame_brief pipe bytes.now) result
        (string_bytes out.old) (string_bytes out.new) }
{
    if is_rts(bytes) {
        write_rts(pipe, bytes, out)
    } else {
        write_brief_pdu(bytes, out)
    }
}

// ---- heads and greetings

/// How many bytes at the front ASCII prints.
fn printed_len(bytes: &[u8]) -> usize
    ensures count { result ≡ prefix_len seen.is_printed bytes.now }
    ensures most { result ≤ length bytes.now }
{
    bytes
        .iter()
        .take_while(|byte| 32 <= **byte && **byte <= 126)
        .count()
}

/// What ASCII prints of the front: of a head the first line, and all of a greeting.
#[tactic(auto, unfolding(crate::specs::Brief::text_brief))]
fn printed(bytes: &[u8]) -> &[u8]
    ensures front { result.now ≡ seen.text_brief bytes.now }
    ensures ascii { IsAscii result.now }
{
    let (front, _) = bytes.split_at(printed_len(bytes));
    front
}

/// Appends what an item is that stands on that pipe.
///
/// Fails where there is no memory; a front of the text may stand in `out` then, and nothing else.
#[tactic(auto, unfolding(crate::specs::Brief::item_brief))]
pub(crate) fn write_item(
    pipe: Option<Pipe>,
    bytes: &[u8],
    out: &mut String,
) -> Result<(), AllocError>
    requires { 0 < length bytes.now }
    ensures { Writes (seen.item_brief pipe bytes.now) result
        (string_bytes out.old) (string_bytes out.new) }
{
    if is_framed(bytes) {
        write_frame(pipe, bytes, out)
    } else {
        push_ascii(printed(bytes), out)
    }
}
