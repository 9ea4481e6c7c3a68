//! The text of RTS packets (MS-RPCH 2.2.3).

ghost use Rattle.std.specs.Prelude.{◌≡◌, ◌++◌, codes, string_bytes};
ghost use Rattle.rh_rts.specs.Showing.{shown};
ghost use Rattle.rh_sig.specs.Cookies.{text_of_cookie};
ghost use Rattle.rh_text.specs.Writing.{Writes};
ghost use Rattle.rh_show.specs.Shown.{address_text, bytes_text, command_text, flags_text, packet_text};

use rh_rts::{Address4or16, CommandRef, Cookie, View};
use rh_sig::{COOKIE_TEXT_LEN, cookie_text, number_of};
use rh_text::{Part, write_parts};
use std::alloc::AllocError;
use std::str;

/// The text of a cookie, written to the room.
pub fn cookie_str<'a>(cookie: &Cookie, room: &'a mut [u8; COOKIE_TEXT_LEN]) -> &'a str
    ensures { result.now ≡ text_of_cookie cookie.now.0 }
{
    cookie_text(cookie, room);
    let Ok(text) = str::from_utf8(room) else {
        unreachable!()
    };
    text
}

/// Appends a client's address: the name of the command, the type of the address, its bytes and the
/// padding behind them.
fn write_address<'a>(
    name: &'a str,
    address: &'a Address4or16,
    padding: &'a [u8],
    out: &mut String,
) -> Result<(), AllocError>
    ensures { Writes (codes " " ++ name.now ++ address_text address.now ++ bytes_text padding.now)
        result (string_bytes out.old) (string_bytes out.new) }
{
    let (space, name, padding) = (Part::Text(" "), Part::Text(name), Part::Hex(padding));
    match address {
        Address4or16::V4(bytes) => {
            let (kind, address) = (Part::Text(" 0 "), Part::Hex(bytes));
            write_parts(&[space, name, kind, address, space, padding], out)
        }
        Address4or16::V6(bytes) => {
            let (kind, address) = (Part::Text(" 1 "), Part::Hex(bytes));
            write_parts(&[space, name, kind, address, space, padding], out)
        }
    }
}

/// Appends the name of a command and its values, with a space before each.
fn write_command(command: CommandRef<'_>, out: &mut String) -> Result<(), AllocError>
    ensures { Writes (codes " " ++ command_text (shown command.entry)) result
        (string_bytes out.old) (string_bytes out.new) }
{
    let (space, name) = (Part::Text(" "), Part::Text(command.name()));
    let mut room = [0; COOKIE_TEXT_LEN];
    match command {
        CommandRef::FlowControlAck {
            received,
            window,
            cookie,
        } => {
            let received = Part::Number(u64::from(received));
            let window = Part::Number(u64::from(window));
            let id = Part::Text(cookie_str(&cookie, &mut room));
            write_parts(
                &[space, name, space, received, space, window, space, id],
                out,
            )
        }
        CommandRef::Cookie(cookie) | CommandRef::AssociationGroupId(cookie) => {
            let id = Part::Text(cookie_str(&cookie, &mut room));
            write_parts(&[space, name, space, id], out)
        }
        CommandRef::Empty | CommandRef::NegativeAnce | CommandRef::Ance => {
            write_parts(&[space, name], out)
        }
        CommandRef::Padding([]) => write_parts(&[space, name, Part::Text(" -")], out),
        CommandRef::Padding(bytes) => write_parts(&[space, name, space, Part::Hex(bytes)], out),
        CommandRef::ClientAddress { address, padding } => {
            write_address(command.name(), &address, &padding, out)
        }
        // The others have a number alone, or the contract would not be proved.
        other => {
            let number = Part::Number(u64::from(number_of(other)));
            write_parts(&[space, name, space, number], out)
        }
    }
}

/// Appends the kind of PDU and the flags.
fn write_flags(flags: u16, out: &mut String) -> Result<(), AllocError>
    ensures { Writes (codes "rts " ++ flags_text flags) result
        (string_bytes out.old) (string_bytes out.new) }
{
    write_parts(&[Part::Text("rts "), Part::Hex(&flags.to_be_bytes())], out)
}

/// Appends a packet's flags and its commands.
pub fn write_packet(packet: &View<'_>, out: &mut String) -> Result<(), AllocError>
    ensures { Writes (packet_text packet.now) result (string_bytes out.old) (string_bytes out.new) }
{
    write_flags(packet.flags(), out)?;
    let mut commands = packet.commands();
    while let Some(command) = commands.next() {
        write_command(command, out)?;
    }
    Ok(())
}
