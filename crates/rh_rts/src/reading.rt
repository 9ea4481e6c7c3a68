//! Reads a command where it stands (MS-RPCH 2.2.3.5).

ghost use Rattle.std.specs.Prelude.{◌≡◌, ◌≤◌, ◌<◌, ◌+◌, ◌^◌, length, take, drop, MatchResult, IfOk};
ghost use Rattle.std.specs.Prelude.{Some, None};
ghost use Rattle.rh_rts.specs.Layouts.{rows};
ghost use Rattle.rh_rts.specs.Refusals.{number_of, type_of, field_of, field_fault, command_fault};
ghost use Rattle.rh_rts.specs.Showing.{shown};
ghost use Rattle.rh_rts.specs.declared.command.Command.TheVariants as commands;
ghost use Rattle.rh_rts.specs.Listing.{cookie_at, address_len, client_address_at, command_of};
ghost use Rattle.rh_rts.specs.Listing.{length_of};

use crate::command::{
    ADDRESS_PADDING_LEN, Address4or16, COOKIE_LEN, CommandRef, Cookie, V4_LEN, V6_LEN,
};
use crate::fault::{RtsFault, RtsKind};
use crate::kinds;
use crate::layout::{ACK_COOKIE_AT, FIELDS_AT, Layout, NUMBER_LEN, TYPE_OF_V4, layout_of, layouts};

/// The number of four bytes in front.
fn number(bytes: &[u8]) -> u32
    requires { NUMBER_LEN ≤ length bytes.now }
    ensures { result ≡ number_of bytes.now }
{
    let (front, _) = bytes.split_at(NUMBER_LEN);
    u32::from_le_bytes([front[0], front[1], front[2], front[3]])
}

/// The number of four bytes behind the type.
fn field(bytes: &[u8]) -> u32
    requires { FIELDS_AT ≤ length bytes.now }
    ensures { result ≡ field_of bytes.now }
{
    let (_, rest) = bytes.split_at(NUMBER_LEN);
    number(rest)
}

/// The cookie from this place on.
fn cookie_at(at: usize, bytes: &[u8]) -> Cookie
    requires { at + COOKIE_LEN ≤ length bytes.now }
    ensures { result ≡ cookie_at at bytes.now }
{
    let (_, rest) = bytes.split_at(at);
    let (front, _) = rest.split_at(COOKIE_LEN);
    let mut cookie = [0; COOKIE_LEN];
    cookie.copy_from_slice(front);
    Cookie(cookie)
}

/// What is wrong with the number behind the type.
fn field_fault(place: usize, layout: Layout, field: u32) -> Option<RtsFault>
    requires { place + NUMBER_LEN < 2 ^ 64 }
    ensures { result ≡ field_fault place layout field }
{
    let (greatest, kind) = layout.greatest_field()?;
    if field <= greatest {
        return None;
    }
    Some(RtsFault {
        place: place + NUMBER_LEN,
        kind,
    })
}

/// What is wrong with the command in front, which begins at that place; else its length.
#[tactic(auto, unfolding(crate::specs::Refusals::command_fault))]
fn whole_length(place: usize, bytes: &[u8]) -> Result<usize, RtsFault>
    requires { place + length bytes.now < 2 ^ 64 }
    ensures kind { IfOk result (λ _. type_of bytes.now < length rows) }
    ensures fits { IfOk result (λ len. (NUMBER_LEN ≤ length bytes.now)
        × (len ≤ length bytes.now)) }
    ensures verdict { MatchResult result
        (λ len. (command_fault place bytes.now ≡ None) × (len ≡ length_of bytes.now))
        (λ wrong. command_fault place bytes.now ≡ Some wrong) }
{
    let cut = RtsFault {
        place,
        kind: RtsKind::CutShort,
    };
    if bytes.len() < NUMBER_LEN {
        return Err(cut);
    }
    let Some(layout) = layout_of(number(bytes)) else {
        return Err(RtsFault {
            place,
            kind: RtsKind::BadType,
        });
    };
    let fixed = layout.fixed_length();
    if bytes.len() < fixed {
        return Err(cut);
    }
    if fixed == NUMBER_LEN {
        return Ok(fixed);
    }
    let field = field(bytes);
    if let Some(wrong) = field_fault(place, layout, field) {
        return Err(wrong);
    }
    let len = fixed + layout.asked_length(field);
    if bytes.len() < len {
        return Err(cut);
    }
    Ok(len)
}

/// The address type and the address behind the type, and the padding behind them.
fn read_address(bytes: &[u8]) -> CommandRef<'_>
    requires fixed { FIELDS_AT ≤ length bytes.now }
    requires whole { FIELDS_AT + address_len (field_of bytes.now) + ADDRESS_PADDING_LEN
        ≤ length bytes.now }
    ensures { shown result ≡ client_address_at (field_of bytes.now)
        (address_len (field_of bytes.now)) bytes.now }
{
    let field = field(bytes);
    let (_, address) = bytes.split_at(FIELDS_AT);
    if field == TYPE_OF_V4 {
        let (address, rest) = address.split_at(V4_LEN);
        return CommandRef::ClientAddress {
            address: Address4or16::V4([address[0], address[1], address[2], address[3]]),
            padding: padding(rest),
        };
    }
    let (address, rest) = address.split_at(V6_LEN);
    let mut bytes = [0; V6_LEN];
    bytes.copy_from_slice(address);
    CommandRef::ClientAddress {
        address: Address4or16::V6(bytes),
        padding: padding(rest),
    }
}

/// The 12 bytes in front.
fn padding(bytes: &[u8]) -> [u8; ADDRESS_PADDING_LEN]
    requires { ADDRESS_PADDING_LEN ≤ length bytes.now }
    ensures { result ≡ take ADDRESS_PADDING_LEN bytes.now }
{
    let (front, _) = bytes.split_at(ADDRESS_PADDING_LEN);
    let mut padding = [0; ADDRESS_PADDING_LEN];
    padding.copy_from_slice(front);
    padding
}

/// The two numbers and the cookie behind the type.
fn read_ack(bytes: &[u8]) -> CommandRef<'_>
    requires { ACK_COOKIE_AT + COOKIE_LEN ≤ length bytes.now }
    ensures { shown result ≡ commands.FlowControlAck (field_of bytes.now)
        (number_of (drop FIELDS_AT bytes.now))
        (cookie_at ACK_COOKIE_AT bytes.now) }
{
    let (_, rest) = bytes.split_at(FIELDS_AT);
    CommandRef::FlowControlAck {
        received: field(bytes),
        window: number(rest),
        cookie: cookie_at(ACK_COOKIE_AT, bytes),
    }
}

/// As many bytes as the number behind the type tells.
fn counted(bytes: &[u8]) -> &[u8]
    requires fixed { FIELDS_AT ≤ length bytes.now }
    requires whole { FIELDS_AT + field_of bytes.now ≤ length bytes.now }
    ensures { result.now ≡ take (field_of bytes.now) (drop FIELDS_AT bytes.now) }
{
    let (_, rest) = bytes.split_at(FIELDS_AT);
    let (counted, _) = rest.split_at(field(bytes) as usize);
    counted
}

/// The command in front, which is whole.
#[tactic(auto, unfolding(crate::specs::Listing::command_of, crate::specs::Layouts::row_of))]
fn command_in_front(bytes: &[u8]) -> CommandRef<'_>
    requires kind { type_of bytes.now < length rows }
    requires fixed { NUMBER_LEN ≤ length bytes.now }
    requires whole { length_of bytes.now ≤ length bytes.now }
    ensures { shown result ≡ command_of bytes.now }
{
    macro_rules! read_fields {
        ($name:ident Nothing) => { CommandRef::$name };
        ($name:ident Number) => { CommandRef::$name(field(bytes)) };
        ($name:ident Destination) => { CommandRef::$name(field(bytes)) };
        ($name:ident Cookie) => { CommandRef::$name(cookie_at(NUMBER_LEN, bytes)) };
        ($name:ident Ack) => { read_ack(bytes) };
        ($name:ident Counted) => { CommandRef::$name(counted(bytes)) };
        ($name:ident Address) => { read_address(bytes) };
    }
    macro_rules! rows {
        ($($kind:ident $name:ident $layout:ident $text:literal;)*) => {
            match number(bytes) {
                $(kinds::$kind => read_fields!($name $layout),)*
                _ => unreachable!(),
            }
        };
    }
    layouts!(rows)
}

/// What stands behind the command in front, which begins at that place.
pub(crate) fn skip_command(place: usize, bytes: &[u8]) -> Result<&[u8], RtsFault>
    requires { place + length bytes.now < 2 ^ 64 }
    ensures { MatchResult result
        (λ rest. (command_fault place bytes.now ≡ None)
        × (rest.now ≡ drop (length_of bytes.now) bytes.now))
        (λ wrong. command_fault place bytes.now ≡ Some wrong) }
{
    let len = whole_length(place, bytes)?;
    let (_, rest) = bytes.split_at(len);
    Ok(rest)
}

/// The command in front, which begins at that place, and what stands behind it.
pub(crate) fn read_command(place: usize, bytes: &[u8]) -> Result<(CommandRef<'_>, &[u8]), RtsFault>
    requires { place + length bytes.now < 2 ^ 64 }
    ensures { MatchResult result
        (λ x. (command_fault place bytes.now ≡ None) × (shown x.0 ≡ command_of bytes.now)
        × (x.1.now ≡ drop (length_of bytes.now) bytes.now)
        × (length_of bytes.now ≤ length bytes.now))
        (λ wrong. command_fault place bytes.now ≡ Some wrong) }
{
    let len = whole_length(place, bytes)?;
    let (_, rest) = bytes.split_at(len);
    Ok((command_in_front(bytes), rest))
}
