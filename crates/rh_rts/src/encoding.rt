//! Writes the bytes of a packet (MS-RPCH 2.2.3.5, 2.2.3.6).

ghost use Rattle.std.specs.Prelude.{◌≡◌, ◌+◌, ◌++◌, ◌≤◌, ◌<◌, length};
ghost use Rattle.rh_rts.specs.Commands.{le4, spelling, spellings, address_bytes, IsCommand};
ghost use Rattle.rh_rts.specs.Commands.{AreCommands};
ghost use Rattle.rh_rts.specs.Packets.{parts, IsPacket, packet_length, header_bytes};
ghost use Rattle.rh_rts.specs.Writing.{over, Writes};

use crate::command::{Address4or16, Command, Cookie};
use crate::fault::NoRoom;
use crate::header::{PACKET_HEADER_LEN, header_front};
use crate::kinds;
use crate::layout::{NUMBER_LEN, TYPE_OF_V4, TYPE_OF_V6, fields, layouts};
use crate::packet::{Packet, length_of};

/// Writes the piece from this place on, and answers the place behind it.
#[tactic(auto, unfolding(crate::specs::Writing::over))]
fn put(room: &mut [u8], at: usize, piece: &[u8]) -> usize
    requires { at + length piece.now ≤ length room.old }
    ensures place { result ≡ at + length piece.now }
    ensures bytes { room.new ≡ over room.old at piece.now }
{
    let end = at + piece.len();
    room[at..end].copy_from_slice(piece);
    end
}

/// Writes a number of four bytes, and answers the place behind it.
fn put_number(room: &mut [u8], at: usize, number: u32) -> usize
    requires { at + NUMBER_LEN ≤ length room.old }
    ensures place { result ≡ at + NUMBER_LEN }
    ensures bytes { room.new ≡ over room.old at (le4 number) }
{
    put(room, at, &number.to_le_bytes())
}

/// Writes an address type and the address, and answers the place behind them.
#[tactic(auto, using(crate::proofs::Overs::over_over))]
fn put_address(room: &mut [u8], at: usize, address: Address4or16) -> usize
    requires { at + length (address_bytes address) ≤ length room.old }
    ensures place { result ≡ at + length (address_bytes address) }
    ensures bytes { room.new ≡ over room.old at (address_bytes address) }
{
    match address {
        Address4or16::V4(bytes) => {
            let at = put_number(room, at, TYPE_OF_V4);
            put(room, at, &bytes)
        }
        Address4or16::V6(bytes) => {
            let at = put_number(room, at, TYPE_OF_V6);
            put(room, at, &bytes)
        }
    }
}

/// Writes two numbers of four bytes, and answers the place behind them.
#[tactic(auto, using(crate::proofs::Overs::over_over))]
fn put_pair(room: &mut [u8], at: usize, first: u32, second: u32) -> usize
    requires { at + (NUMBER_LEN + NUMBER_LEN) ≤ length room.old }
    ensures place { result ≡ at + (NUMBER_LEN + NUMBER_LEN) }
    ensures bytes { room.new ≡ over room.old at (le4 first ++ le4 second) }
{
    let at = put_number(room, at, first);
    put_number(room, at, second)
}

/// Writes a type and a cookie, and answers the place behind them.
#[tactic(auto, using(crate::proofs::Overs::over_over))]
fn put_cookie(room: &mut [u8], at: usize, kind: u32, cookie: Cookie) -> usize
    requires { at + (NUMBER_LEN + length cookie.0) ≤ length room.old }
    ensures place { result ≡ at + (NUMBER_LEN + length cookie.0) }
    ensures bytes { room.new ≡ over room.old at (le4 kind ++ cookie.0) }
{
    let at = put_number(room, at, kind);
    put(room, at, &cookie.0)
}

/// Writes a command, and answers the place behind it.
#[tactic(auto, using(crate::proofs::Overs::over_over), unfolding(crate::specs::Commands::spelling))]
fn put_command(room: &mut [u8], at: usize, command: &Command) -> usize
    requires room { at + length (spelling command.now) ≤ length room.old }
    requires sound { IsCommand command.now }
    ensures place { result ≡ at + length (spelling command.now) }
    ensures bytes { room.new ≡ over room.old at (spelling command.now) }
{
    macro_rules! put_fields {
        ($kind:ident Nothing $a:ident $b:ident $c:ident) => { put_number(room, at, kinds::$kind) };
        ($kind:ident Number $a:ident $b:ident $c:ident) => {
            put_pair(room, at, kinds::$kind, *$a)
        };
        ($kind:ident Destination $a:ident $b:ident $c:ident) => {
            put_pair(room, at, kinds::$kind, *$a)
        };
        ($kind:ident Cookie $a:ident $b:ident $c:ident) => {
            put_cookie(room, at, kinds::$kind, *$a)
        };
        ($kind:ident Ack $a:ident $b:ident $c:ident) => {{
            let at = put_pair(room, at, kinds::$kind, *$a);
            put_cookie(room, at, *$b, *$c)
        }};
        ($kind:ident Counted $a:ident $b:ident $c:ident) => {{
            let at = put_pair(room, at, kinds::$kind, $a.len() as u32);
            put(room, at, $a.as_slice())
        }};
        ($kind:ident Address $a:ident $b:ident $c:ident) => {{
            let at = put_number(room, at, kinds::$kind);
            let at = put_address(room, at, *$a);
            put(room, at, $b)
        }};
    }
    macro_rules! rows {
        ($($kind:ident $name:ident $layout:ident $text:literal;)*) => {
            match command {
                $(fields!(Command $name $layout a b c) => put_fields!($kind $layout a b c),)*
            }
        };
    }
    layouts!(rows)
}

/// Writes the commands, and answers the place behind them.
fn put_commands(room: &mut [u8], at: usize, commands: &[Command]) -> usize
    requires room { at + length (spellings commands.now) ≤ length room.old }
    requires sound { AreCommands commands.now }
    ensures place { result ≡ at + length (spellings commands.now) }
    ensures bytes { room.new ≡ over room.old at (spellings commands.now) }
{
    let mut place = at;
    for command in commands {
        place = put_command(room, place, command);
    }
    place
}

/// Writes the header in front.
#[tactic(auto, using(crate::proofs::Overs::over_over))]
fn put_header(room: &mut [u8], frag: u16, flags: u16, count: u16) -> usize
    requires { PACKET_HEADER_LEN ≤ length room.old }
    ensures place { result ≡ PACKET_HEADER_LEN }
    ensures bytes { room.new ≡ over room.old 0 (header_bytes frag flags count) }
{
    let at = put(room, 0, &header_front(frag.to_le_bytes()));
    let at = put(room, at, &flags.to_le_bytes());
    put(room, at, &count.to_le_bytes())
}

/// Writes a packet of so many bytes at the front of the room, and answers its length in bytes.
#[tactic(auto, unfolding(crate::specs::Packets::packet_bytes))]
fn write(need: usize, flags: u16, commands: &[Command], room: &mut [u8]) -> Result<usize, NoRoom>
    requires sound { IsPacket (parts flags commands.now) }
    requires length { need ≡ packet_length (parts flags commands.now) }
    ensures { Writes (parts flags commands.now) room.old room.new result }
{
    if need > room.len() {
        return Err(NoRoom { need });
    }
    let at = put_header(room, need as u16, flags, commands.len() as u16);
    Ok(put_commands(room, at, commands))
}

/// Writes the packet at the front of the room, and answers its length in bytes.
///
/// Fails where the packet is longer than the room, which then stays as it was.
pub fn encode(packet: &Packet, room: &mut [u8]) -> Result<usize, NoRoom>
    ensures { Writes packet.now room.old room.new result }
{
    write(packet.length(), packet.flags(), packet.commands(), room)
}

/// Writes the packet of these flags and commands as `encode` does, with no memory for a packet.
///
/// They are to be those of a packet: no bit outside 0x007F, no destination above 3, and at most
/// 65,535 bytes in all.
pub fn encode_parts(flags: u16, commands: &[Command], room: &mut [u8]) -> Result<usize, NoRoom>
    requires { IsPacket (parts flags commands.now) }
    ensures { Writes (parts flags commands.now) room.old room.new result }
{
    write(length_of(commands) as usize, flags, commands, room)
}
