//! A packet (MS-RPCH 2.2.3.6).

ghost use Rattle.std.specs.Prelude.{◌≡◌, ◌+◌, ◌<◌, ◌^◌, length, MatchResult, IfOk, Ok, Err};
ghost use Rattle.rh_rts.specs.Commands.{spelling, spellings, address_bytes, IsAddress, HasSize};
ghost use Rattle.rh_rts.specs.Commands.{HaveSizes};
ghost use Rattle.rh_rts.specs.Packets.{parts, packet_length, made, bad_destination, as_told};

use crate::command::{
    ADDRESS_PADDING_LEN, Address4or16, COOKIE_LEN, Command, Cookie, GREATEST_DESTINATION,
};
use crate::fault::PacketFault;
use crate::header::PACKET_HEADER_LEN;
use crate::layout::{NUMBER_LEN, fields, layouts};
use std::alloc::{AllocError, Global};
use std::marker::Model;

/// No flags.
pub const NONE: u16 = 0;
/// A ping.
pub const PING: u16 = 0x0001;
/// An acknowledgement, a keepalive interval, or the traffic of pings.
pub const OTHER_CMD: u16 = 0x0002;
/// A channel is being replaced.
pub const RECYCLE_CHANNEL: u16 = 0x0004;
/// The packet is of an IN channel.
pub const IN_CHANNEL: u16 = 0x0008;
/// The packet is of an OUT channel.
pub const OUT_CHANNEL: u16 = 0x0010;
/// The last packet of a channel in MS-RPCH. Here the packet is of a clean end, behind which RTS
/// packets may follow (profile).
pub const EOF: u16 = 0x0020;
/// The packet answers an echo request.
pub const ECHO: u16 = 0x0040;
/// All the flags of a packet, one bit each: any number above has a bit that is no flag.
pub const ALL_FLAGS: u16 = 0x007F;

/// The greatest length of a packet, in bytes.
pub const GREATEST_PACKET_LENGTH: u64 = 65_535;

/// Flags and commands that can be sent.
#[derive(Debug, Drop)]
pub struct Packet {
    flags: u16,
    length: u16,
    commands: Vec<Command>,
}

impl Model for Packet {
    ghost use Rattle.std.specs.Prelude.{◌≡◌};
    ghost use Rattle.rh_rts.specs.Packets.{Parts, IsPacket, packet_length};

    ghost Value = { Parts };

    ghost view = { λ p. record { flags = p.flags; commands = p.commands.items } };

    ghost invariant = { λ p. IsPacket (record { flags = p.flags; commands = p.commands.items })
        × (p.length ≡ packet_length (record { flags = p.flags; commands = p.commands.items })) };
}

impl Packet {
    ghost use Rattle.rh_rts.specs.Packets.{Parts, IsPacket, IsMade};

    /// The packet of these flags and commands, which are copied.
    ///
    /// Fails with the first of these that is so: a bit outside 0x007F is set; a destination is
    /// above 3; the sum of the parts is above 65,535 bytes; there is no memory for the copy.
    pub fn new(alloc: Global, flags: u16, commands: &[Command]) -> Result<Packet, PacketFault>
        ensures made { IsMade (parts flags commands.now) result }
        ensures sound { IfOk result IsPacket }
    {
        let length = checked_length(flags, commands)?;
        let commands = copy_of(alloc, commands)?;
        Ok(Packet::of(flags, length, commands))
    }

    /// The packet of these parts.
    pub(crate) fn of(flags: u16, length: u16, commands: Vec<Command>) -> Packet
        requires sound { IsPacket (parts flags commands.items) }
        requires length { length ≡ packet_length (parts flags commands.items) }
        ensures { result ≡ parts flags commands.items }
    {
        Packet {
            flags,
            length,
            commands,
        }
    }

    /// The flags, of `PING` to `ECHO`.
    pub fn flags(&self) -> u16
        ensures sound { IsPacket self.now }
        ensures flags { result ≡ self.now.flags }
    {
        self.flags
    }

    /// The commands, in their order.
    pub fn commands(&self) -> &[Command]
        ensures { result.now ≡ self.now.commands }
    {
        &self.commands
    }

    /// The commands, in their order, with the memory that the packet had for them.
    pub fn into_commands(self) -> Vec<Command>
        ensures { result.items ≡ self.commands }
    {
        self.commands
    }

    /// The length of the packet, in bytes: 20 to 65,535.
    pub fn length(&self) -> usize
        ensures sound { IsPacket self.now }
        ensures length { result ≡ packet_length self.now }
    {
        usize::from(self.length)
    }
}

/// The length of the packet of these flags and commands, or the first reason why there is none.
fn checked_length(flags: u16, commands: &[Command]) -> Result<u16, PacketFault>
    ensures length { IfOk result (λ length. length ≡ packet_length (parts flags commands.now)) }
    ensures size { IfOk result (λ _. HaveSizes commands.now) }
    ensures verdict { MatchResult result
        (λ _. made (parts flags commands.now) ≡ Ok (parts flags commands.now))
        (λ fault. made (parts flags commands.now) ≡ Err fault) }
{
    if flags > ALL_FLAGS {
        return Err(PacketFault::BadFlags(flags));
    }
    let length = length_of(commands);
    if let Some(destination) = bad_destination(commands) {
        return Err(PacketFault::BadDestination(destination));
    }
    if length > GREATEST_PACKET_LENGTH {
        return Err(PacketFault::TooLong(length));
    }
    Ok(length as u16)
}

/// The commands, each with memory of its own.
fn copy_of(alloc: Global, commands: &[Command]) -> Result<Vec<Command>, AllocError>
    ensures { IfOk result (λ all. all.items ≡ commands.now) }
{
    let mut all = Vec::with_capacity(alloc, commands.len())?;
    for command in commands {
        all.push(command.borrowed().owned(alloc)?)?;
    }
    Ok(all)
}

/// The first destination that is none.
fn bad_destination(commands: &[Command]) -> Option<u32>
    ensures { result ≡ bad_destination commands.now }
{
    for command in commands {
        if let Command::Destination(destination) = command {
            if *destination > GREATEST_DESTINATION {
                return Some(*destination);
            }
        }
    }
    None
}

/// The length of a packet of these commands, in bytes: 2^64 - 1 where it is above that.
pub fn length_of(commands: &[Command]) -> u64
    ensures length { result ≡ as_told (PACKET_HEADER_LEN + length (spellings commands.now)) }
    ensures size { HaveSizes commands.now }
{
    let mut sum = PACKET_HEADER_LEN as u64;
    for command in commands {
        sum = sum.saturating_add(command_length(command));
    }
    sum
}

/// The length of a number, in bytes.
fn number_length(number: u32) -> u64
    ensures length { result ≡ NUMBER_LEN }
    ensures size { number < 2 ^ 32 }
{
    let bytes = number.to_le_bytes();
    bytes.len() as u64
}

/// The length of a cookie, in bytes.
fn cookie_length(cookie: Cookie) -> u64
    ensures length { result ≡ COOKIE_LEN }
    ensures size { length cookie.0 ≡ COOKIE_LEN }
{
    cookie.0.len() as u64
}

/// The length of a client's address with its type and its padding, in bytes.
fn address_length(address: Address4or16, padding: [u8; ADDRESS_PADDING_LEN]) -> u64
    ensures length { result ≡ length (address_bytes address) + length padding }
    ensures address { IsAddress address }
    ensures padding { length padding ≡ ADDRESS_PADDING_LEN }
{
    let address = match address {
        Address4or16::V4(bytes) => bytes.len(),
        Address4or16::V6(bytes) => bytes.len(),
    };
    (NUMBER_LEN + address + padding.len()) as u64
}

/// The length of a command, in bytes: 2^64 - 1 where it is above that.
#[tactic(auto, unfolding(crate::specs::Commands::spelling))]
fn command_length(command: &Command) -> u64
    ensures length { result ≡ as_told (length (spelling command.now)) }
    ensures size { HasSize command.now }
{
    macro_rules! fields_length {
        (Nothing $a:ident $b:ident $c:ident) => { 0 };
        (Number $a:ident $b:ident $c:ident) => { number_length(*$a) };
        (Destination $a:ident $b:ident $c:ident) => { number_length(*$a) };
        (Cookie $a:ident $b:ident $c:ident) => { cookie_length(*$a) };
        (Ack $a:ident $b:ident $c:ident) => {
            number_length(*$a) + number_length(*$b) + cookie_length(*$c)
        };
        (Counted $a:ident $b:ident $c:ident) => {
            ($a.len() as u64).saturating_add(NUMBER_LEN as u64)
        };
        (Address $a:ident $b:ident $c:ident) => { address_length(*$a, *$b) };
    }
    macro_rules! rows {
        ($($kind:ident $name:ident $layout:ident $text:literal;)*) => {
            match command {
                $(fields!(Command $name $layout a b c) => fields_length!($layout a b c),)*
            }
        };
    }
    let fields = layouts!(rows);
    fields.saturating_add(NUMBER_LEN as u64)
}
