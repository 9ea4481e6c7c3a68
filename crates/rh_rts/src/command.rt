//! The commands of RTS packets (MS-RPCH 2.2.3.5).

use crate::kinds;
use crate::layout::{fields, layouts};
use rh_text::Bytes;
use std::alloc::{AllocError, Global};

/// The length of a cookie, in bytes.
pub const COOKIE_LEN: usize = 16;
/// The length of an address of IPv4, in bytes.
pub const V4_LEN: usize = 4;
/// The length of an address of IPv6, in bytes.
pub const V6_LEN: usize = 16;
/// The length of the padding behind a client's address, in bytes.
pub const ADDRESS_PADDING_LEN: usize = 12;
/// The destination of a packet to the client (MS-RPCH 2.2.3.3).
pub const TO_CLIENT: u32 = 0;
/// The destination of a packet to an in proxy (MS-RPCH 2.2.3.3).
pub const TO_IN_PROXY: u32 = 1;
/// The destination of a packet to the server (MS-RPCH 2.2.3.3).
pub const TO_SERVER: u32 = 2;
/// The destination of a packet to an out proxy (MS-RPCH 2.2.3.3).
pub const TO_OUT_PROXY: u32 = 3;
/// The greatest destination.
pub const GREATEST_DESTINATION: u32 = TO_OUT_PROXY;

/// A cookie, as its bytes stand in the packet (MS-RPCH 2.2.3.1).
#[derive(Clone, Copy, Debug, PartialEq, Eq)]
pub struct Cookie(pub [u8; COOKIE_LEN]);

/// What stands where there is no cookie.
pub const NO_COOKIE: Cookie = Cookie([0; COOKIE_LEN]);

/// A client's address, as its bytes stand in the packet (MS-RPCH 2.2.3.2).
#[derive(Clone, Copy, Debug, PartialEq, Eq)]
pub enum Address4or16 {
    V4([u8; V4_LEN]),
    V6([u8; V6_LEN]),
}

/// A command (MS-RPCH 2.2.3.5), in the order of the types.
#[derive(Debug, Drop)]
pub enum Command {
    /// In bytes (MS-RPCH 2.2.3.5.1).
    ReceiveWindowSize(u32),
    /// In bytes, and the channel that they came by (MS-RPCH 2.2.3.5.2).
    FlowControlAck {
        received: u32,
        window: u32,
        cookie: Cookie,
    },
    /// In milliseconds (MS-RPCH 2.2.3.5.3).
    ConnectionTimeout(u32),
    /// Of a connection or a channel (MS-RPCH 2.2.3.5.4).
    Cookie(Cookie),
    /// In bytes (MS-RPCH 2.2.3.5.5).
    ChannelLifetime(u32),
    /// In milliseconds (MS-RPCH 2.2.3.5.6).
    ClientKeepalive(u32),
    /// Of the protocol (MS-RPCH 2.2.3.5.7).
    Version(u32),
    /// It says nothing (MS-RPCH 2.2.3.5.8).
    Empty,
    /// At most 65,535 bytes (MS-RPCH 2.2.3.5.9).
    Padding(Bytes),
    /// A new channel was not made (MS-RPCH 2.2.3.5.10).
    NegativeAnce,
    /// A new channel was made (MS-RPCH 2.2.3.5.11).
    Ance,
    /// Where the client's connection comes from (MS-RPCH 2.2.3.5.12).
    ClientAddress {
        address: Address4or16,
        padding: [u8; ADDRESS_PADDING_LEN],
    },
    /// The group that a connection is of (MS-RPCH 2.2.3.5.13).
    AssociationGroupId(Cookie),
    /// `TO_CLIENT` to `TO_OUT_PROXY` (MS-RPCH 2.2.3.5.14).
    Destination(u32),
    /// In bytes (MS-RPCH 2.2.3.5.15).
    PingTrafficSentNotify(u32),
}

/// A command whose padding stands in the packet's bytes.
#[derive(Clone, Copy, Debug, PartialEq, Eq)]
pub enum CommandRef<'a> {
    ReceiveWindowSize(u32),
    FlowControlAck {
        received: u32,
        window: u32,
        cookie: Cookie,
    },
    ConnectionTimeout(u32),
    Cookie(Cookie),
    ChannelLifetime(u32),
    ClientKeepalive(u32),
    Version(u32),
    Empty,
    Padding(&'a [u8]),
    NegativeAnce,
    Ance,
    ClientAddress {
        address: Address4or16,
        padding: [u8; ADDRESS_PADDING_LEN],
    },
    AssociationGroupId(Cookie),
    Destination(u32),
    PingTrafficSentNotify(u32),
}

impl Command {
    ghost use Rattle.std.specs.Prelude.{◌≡◌};
    ghost use Rattle.rh_rts.specs.Showing.{shown};

    /// The command, with its padding lent.
    pub fn borrowed(&self) -> CommandRef<'_>
        ensures { shown result ≡ self.now }
    {
        macro_rules! borrowed {
            ($name:ident Nothing $a:ident $b:ident $c:ident) => { CommandRef::$name };
            ($name:ident Counted $a:ident $b:ident $c:ident) => {
                CommandRef::$name($a.as_slice())
            };
            ($name:ident Ack $a:ident $b:ident $c:ident) => {
                CommandRef::$name { received: *$a, window: *$b, cookie: *$c }
            };
            ($name:ident Address $a:ident $b:ident $c:ident) => {
                CommandRef::$name { address: *$a, padding: *$b }
            };
            ($name:ident $one:ident $a:ident $b:ident $c:ident) => { CommandRef::$name(*$a) };
        }
        macro_rules! rows {
            ($($kind:ident $name:ident $layout:ident $text:literal;)*) => {
                match self {
                    $(fields!(Command $name $layout a b c) => borrowed!($name $layout a b c),)*
                }
            };
        }
        layouts!(rows)
    }
}

impl CommandRef<'_> {
    ghost use Rattle.std.specs.Prelude.{◌≡◌, IfOk};
    ghost use Rattle.rh_rts.specs.Commands.{kind_of};
    ghost use Rattle.rh_rts.specs.Texts.{command_name};
    ghost use Rattle.rh_rts.specs.Showing.{shown};

    /// The type of the command (MS-RPCH 2.2.3.5): 0 to 14.
    pub fn kind(&self) -> u32
        ensures { result ≡ kind_of (shown self.now) }
    {
        macro_rules! rows {
            ($($kind:ident $name:ident $layout:ident $text:literal;)*) => {
                match self {
                    $(CommandRef::$name { .. } => kinds::$kind,)*
                }
            };
        }
        layouts!(rows)
    }

    /// The name of the command (MS-RPCH 2.2.3.5).
    pub fn name(&self) -> &'static str
        ensures { result.now ≡ command_name (shown self.now) }
    {
        macro_rules! rows {
            ($($kind:ident $name:ident $layout:ident $text:literal;)*) => {
                match self {
                    $(CommandRef::$name { .. } => $text,)*
                }
            };
        }
        layouts!(rows)
    }

    /// The command, with memory of its own for a padding.
    pub(crate) fn owned(self, alloc: Global) -> Result<Command, AllocError>
        ensures { IfOk result (λ command. command ≡ shown self.entry) }
    {
        macro_rules! owned {
            ($name:ident Counted $a:ident $b:ident $c:ident) => {
                Command::$name(Bytes::new(Vec::from_slice(alloc, $a)?))
            };
            ($name:ident $layout:ident $a:ident $b:ident $c:ident) => {
                fields!(Command $name $layout $a $b $c)
            };
        }
        macro_rules! rows {
            ($($kind:ident $name:ident $layout:ident $text:literal;)*) => {
                match self {
                    $(fields!(CommandRef $name $layout a b c) => owned!($name $layout a b c),)*
                }
            };
        }
        Ok(layouts!(rows))
    }
}
