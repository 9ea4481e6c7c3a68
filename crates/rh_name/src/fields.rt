//! The fields of packets as text, each behind its word.

ghost use Rattle.std.specs.Prelude.{◌≡◌, ◌<◌, ◌+◌, ◌++◌, codes, slice_index, string_bytes};
ghost use Rattle.rh_rts.specs.declared.command.TheConstants.{V4_LEN};
ghost use Rattle.rh_show.specs.Shown.{flags_text};
ghost use Rattle.rh_name.specs.declared.fields.TheConstants.{V6_LEN};
ghost use Rattle.rh_rts.specs.Showing.{shown};
ghost use Rattle.rh_text.specs.Writing.{Writes};
ghost use Rattle.rh_name.specs.Fields as seen;

use crate::cookies::{write_ack, write_cookie};
use crate::words::push;
use rh_rts::{Address4or16, CommandRef, TO_CLIENT, TO_IN_PROXY, TO_SERVER, V4_LEN, View};
use rh_sig::ranges::PROTOCOL_VERSION;
use rh_sig::{Name, number_of};
use rh_text::{Part, write_parts};
use std::alloc::AllocError;

/// The length of an address of IPv6, in bytes.
pub const V6_LEN: usize = 16;

// ---- values

/// The word for the role that a destination names (MS-RPCH 2.2.3.3).
fn role_word(destination: u32) -> &'static str
    ensures { result.now ≡ seen.role_word destination }
{
    match destination {
        TO_CLIENT => " client",
        TO_IN_PROXY => " in-proxy",
        TO_SERVER => " server",
        _ => " out-proxy",
    }
}

/// Two bytes of an address.
#[tactic(auto, unfolding(crate::specs::Fields::pair))]
fn pair(bytes: &[u8; V6_LEN], at: usize) -> [u8; 2]
    requires { at + 1 < V6_LEN }
    ensures { result ≡ seen.pair at bytes.now }
{
    [bytes[at], bytes[at + 1]]
}

/// A byte of an address.
fn number(bytes: &[u8; V4_LEN], at: usize) -> u64
    requires { at < V4_LEN }
    ensures { result ≡ slice_index bytes.now at }
{
    u64::from(bytes[at])
}

/// Appends a space and an address of IPv4: four numbers with dots.
fn write_v4(bytes: &[u8; V4_LEN], out: &mut String) -> Result<(), AllocError>
    ensures { Writes (seen.v4_text bytes.now) result
        (string_bytes out.old) (string_bytes out.new) }
{
    let (a, b) = (number(bytes, 0), number(bytes, 1));
    let (c, d) = (number(bytes, 2), number(bytes, 3));
    let dot = Part::Text(".");
    write_parts(
        &[
            Part::Text(" "),
            Part::Number(a),
            dot,
            Part::Number(b),
            dot,
            Part::Number(c),
            dot,
            Part::Number(d),
        ],
        out,
    )
}

/// Appends a space and an address of IPv6: eight groups of hex digits.
fn write_v6(bytes: &[u8; V6_LEN], out: &mut String) -> Result<(), AllocError>
    ensures { Writes (seen.v6_text bytes.now) result
        (string_bytes out.old) (string_bytes out.new) }
{
    let (a, b, c, d) = (
        pair(bytes, 0),
        pair(bytes, 2),
        pair(bytes, 4),
        pair(bytes, 6),
    );
    let (e, f, g, h) = (
        pair(bytes, 8),
        pair(bytes, 10),
        pair(bytes, 12),
        pair(bytes, 14),
    );
    let (space, colon) = (Part::Text(" "), Part::Text(":"));
    write_parts(
        &[
            space,
            Part::Hex(&a),
            colon,
            Part::Hex(&b),
            colon,
            Part::Hex(&c),
            colon,
            Part::Hex(&d),
            colon,
            Part::Hex(&e),
            colon,
            Part::Hex(&f),
            colon,
            Part::Hex(&g),
            colon,
            Part::Hex(&h),
        ],
        out,
    )
}

/// Appends a word and an address.
fn write_address(
    word: &'static str,
    address: &Address4or16,
    out: &mut String,
) -> Result<(), AllocError>
    ensures { Writes (word.now ++ seen.address_text address.now) result
        (string_bytes out.old) (string_bytes out.new) }
{
    push(word, out)?;
    match address {
        Address4or16::V4(bytes) => write_v4(bytes, out),
        Address4or16::V6(bytes) => write_v6(bytes, out),
    }
}

/// Appends a word and the bytes of a padding, or a hyphen where there are none.
fn write_padding(word: &'static str, bytes: &[u8], out: &mut String) -> Result<(), AllocError>
    ensures { Writes (word.now ++ seen.padding_text bytes.now) result
        (string_bytes out.old) (string_bytes out.new) }
{
    let word = Part::Text(word);
    if bytes.is_empty() {
        return write_parts(&[word, Part::Text(" -")], out);
    }
    write_parts(&[word, Part::Text(" "), Part::Hex(bytes)], out)
}

/// Appends a word and the values of a command.
fn write_field(
    word: &'static str,
    command: CommandRef<'_>,
    out: &mut String,
) -> Result<(), AllocError>
    ensures { Writes (seen.field_text word.now (shown command.entry)) result
        (string_bytes out.old) (string_bytes out.new) }
{
    match command {
        CommandRef::FlowControlAck {
            received,
            window,
            cookie,
        } => write_ack(word, received, window, cookie, out),
        CommandRef::Cookie(cookie) | CommandRef::AssociationGroupId(cookie) => {
            write_cookie(word, cookie, out)
        }
        CommandRef::Empty | CommandRef::NegativeAnce | CommandRef::Ance => out.push_str(word),
        CommandRef::Padding(bytes) => write_padding(word, bytes, out),
        CommandRef::ClientAddress { address, .. } => write_address(word, &address, out),
        CommandRef::Destination(role) => {
            write_parts(&[Part::Text(word), Part::Text(role_word(role))], out)
        }
        // The others have a number alone, or the contract would not be proved.
        other => {
            let number = Part::Number(u64::from(number_of(other)));
            write_parts(&[Part::Text(word), Part::Text(" "), number], out)
        }
    }
}

// ---- words

/// The word for the first cookie of a packet, that of the connection, or for another.
fn of_channel(word: &'static str, number: u8) -> &'static str
    ensures { result.now ≡ seen.of_channel word.now number }
{
    if number == 0 { " virtual" } else { word }
}

/// The word for a cookie of a packet that asks for a successor.
fn of_replacement(number: u8) -> &'static str
    ensures { result.now ≡ seen.of_replacement number }
{
    match number {
        0 => " virtual",
        1 => " predecessor",
        _ => " successor",
    }
}

/// The word for a cookie of a packet with this name, before which so many stand.
pub fn cookie_word(name: Name, number: u8) -> &'static str
    ensures { result.now ≡ seen.cookie_word name number }
{
    match name {
        Name::ConnA1 | Name::ConnA2 => of_channel(" out", number),
        Name::ConnB1 | Name::ConnB2 => of_channel(" in", number),
        Name::InR1A1 | Name::InR1A2 | Name::OutR1A3 | Name::OutR1A4 => of_replacement(number),
        _ => " successor",
    }
}

/// The word for a command of a packet with this name, before which so many cookies stand.
fn word_of(name: Name, number: u8, command: CommandRef<'_>) -> &'static str
    ensures { result.now ≡ seen.word_of name number (shown command.entry) }
{
    match command {
        CommandRef::ReceiveWindowSize(_) => " window",
        CommandRef::ConnectionTimeout(_) => " timeout",
        CommandRef::Cookie(_) => cookie_word(name, number),
        CommandRef::ChannelLifetime(_) => " lifetime",
        CommandRef::ClientKeepalive(_) => " keepalive",
        CommandRef::Version(_) => " version",
        CommandRef::ClientAddress { .. } => " address",
        CommandRef::AssociationGroupId(_) => " group",
        CommandRef::Destination(_) => " to",
        CommandRef::PingTrafficSentNotify(_) => " bytes",
        CommandRef::FlowControlAck { .. }
        | CommandRef::Empty
        | CommandRef::Padding(_)
        | CommandRef::NegativeAnce
        | CommandRef::Ance => "",
    }
}

/// How many cookies stand before the next command, as far as words tell.
pub fn counted(number: u8, command: CommandRef<'_>) -> u8
    ensures { result ≡ seen.counted number (shown command.entry) }
{
    match command {
        CommandRef::Cookie(_) => number.saturating_add(1),
        _ => number,
    }
}

// ---- packets

/// Appends a field of a packet with this name, before which so many cookies stand.
pub fn write_named_field(
    name: Name,
    number: u8,
    command: CommandRef<'_>,
    out: &mut String,
) -> Result<(), AllocError>
    ensures { Writes (seen.named_field name number (shown command.entry)) result
        (string_bytes out.old) (string_bytes out.new) }
{
    match command {
        CommandRef::Padding(_) | CommandRef::Version(PROTOCOL_VERSION) => Ok(()),
        other => write_field(word_of(name, number, other), other, out),
    }
}

/// Appends the fields of a packet with this name.
pub fn write_fields(name: Name, packet: &View<'_>, out: &mut String) -> Result<(), AllocError>
    ensures { Writes (seen.fields_text name 0 packet.now.commands) result
        (string_bytes out.old) (string_bytes out.new) }
{
    let mut number = 0;
    let mut commands = packet.commands();
    while let Some(command) = commands.next() {
        write_named_field(name, number, command, out)?;
        number = counted(number, command);
    }
    Ok(())
}

/// Appends a space, the name of a command and its values.
fn write_command(command: CommandRef<'_>, out: &mut String) -> Result<(), AllocError>
    ensures { Writes (seen.command_text (shown command.entry)) result
        (string_bytes out.old) (string_bytes out.new) }
{
    out.push_str(" ")?;
    write_field(command.name(), command, out)
}

/// Appends commands by their own names.
fn write_commands(packet: &View<'_>, out: &mut String) -> Result<(), AllocError>
    ensures { Writes (seen.commands_text packet.now.commands) result
        (string_bytes out.old) (string_bytes out.new) }
{
    let mut commands = packet.commands();
    while let Some(command) = commands.next() {
        write_command(command, out)?;
    }
    Ok(())
}

/// Appends the flags of a packet that has no name.
fn write_flags(flags: u16, out: &mut String) -> Result<(), AllocError>
    ensures { Writes (codes "unnamed " ++ flags_text flags) result
        (string_bytes out.old) (string_bytes out.new) }
{
    write_parts(
        &[Part::Text("unnamed "), Part::Hex(&flags.to_be_bytes())],
        out,
    )
}

/// Appends the flags of a packet that has no name, and its commands.
pub fn write_unnamed(packet: &View<'_>, out: &mut String) -> Result<(), AllocError>
    ensures { Writes (seen.unnamed_text packet.now) result
        (string_bytes out.old) (string_bytes out.new) }
{
    write_flags(packet.flags(), out)?;
    write_commands(packet, out)
}
