//! Named packets with their fields.

ghost use Rattle.std.specs.Prelude.{◌≡◌, ◌↔◌, IsTrue};
ghost use Rattle.rh_sig.specs.Values.{name_of_named, destination_of, MayBeWritten};

use crate::name::Name;
use crate::rows::named_packets;
use rh_rts::{Address4or16, Cookie, GREATEST_DESTINATION};

/// A named packet, with the fields of its commands in their order, each as it is in `Command`.
///
/// A connection, channel, predecessor or successor is told by its cookie. Windows, lifetimes and
/// counts are in bytes, timeouts and keepalives in milliseconds, a destination is 0 to 3.
#[derive(Clone, Copy, Debug, PartialEq, Eq)]
pub enum Named {
    /// Version, connection, OUT channel, window of the client.
    ConnA1(u32, Cookie, Cookie, u32),
    /// Version, connection, OUT channel, lifetime, window of the out proxy.
    ConnA2(u32, Cookie, Cookie, u32, u32),
    /// Timeout of the out proxy.
    ConnA3(u32),
    /// Version, connection, IN channel, lifetime, keepalive of the client, association group id.
    ConnB1(u32, Cookie, Cookie, u32, u32, Cookie),
    /// Version, connection, IN channel, window and timeout of the in proxy, association group id,
    /// address of the client and its padding.
    ConnB2(u32, Cookie, Cookie, u32, u32, Cookie, Address4or16, [u8; 12]),
    /// Window of the server, version.
    ConnB3(u32, u32),
    /// Version, window and timeout of the in proxy.
    ConnC1(u32, u32, u32),
    /// Version, window and timeout of the in proxy.
    ConnC2(u32, u32, u32),
    /// Version, connection, predecessor, successor.
    InR1A1(u32, Cookie, Cookie, Cookie),
    /// Version, connection, predecessor, successor, window and timeout of the in proxy.
    InR1A2(u32, Cookie, Cookie, Cookie, u32, u32),
    /// Destination, version, window and timeout of the in proxy.
    InR1A3(u32, u32, u32, u32),
    /// Destination, version, window and timeout of the in proxy.
    InR1A4(u32, u32, u32, u32),
    /// Successor.
    InR1A5(Cookie),
    /// Successor.
    InR1A6(Cookie),
    InR1B1,
    /// Window of the server.
    InR1B2(u32),
    /// Successor.
    InR2A2(Cookie),
    /// Destination.
    InR2A3(u32),
    /// Destination.
    InR2A4(u32),
    /// Destination.
    OutR1A1(u32),
    /// Destination.
    OutR1A2(u32),
    /// Version, connection, predecessor, successor, window of the client.
    OutR1A3(u32, Cookie, Cookie, Cookie, u32),
    OutR2C1,
    /// Version, connection, predecessor, successor, lifetime, window and timeout of the out proxy.
    OutR1A4(u32, Cookie, Cookie, Cookie, u32, u32, u32),
    /// Destination, version, timeout of the out proxy.
    OutR1A5(u32, u32, u32),
    /// Destination, version, timeout of the out proxy.
    OutR1A6(u32, u32, u32),
    /// Destination, successor.
    OutR1A7(u32, Cookie),
    /// Destination, successor.
    OutR1A8(u32, Cookie),
    OutR1A9,
    OutR1A10,
    EndA1,
    EndA2,
    EndB1,
    EndB2,
    /// Bytes received, available window, channel.
    Ack(u32, u32, Cookie),
    /// Destination, bytes received, available window, channel.
    AckTo(u32, u32, u32, Cookie),
    /// Keepalive of the client.
    KeepAlive(u32),
    /// Bytes of pings that were sent.
    PingTraffic(u32),
    Ping,
}

impl Named {
    /// The packet's name.
    pub fn name(&self) -> Name
        ensures { result ≡ name_of_named self.now }
    {
        macro_rules! rows {
            ($($name:ident $(($($field:ident),+))? on $($pipe:ident)|+ is $($flag:ident)|+
                [$($command:ident $(($of:ident))? $({ $($with:ident),+ })?),*];)*) => {
                match self {
                    $(Named::$name { .. } => Name::$name,)*
                }
            };
        }
        named_packets!(rows)
    }

    /// The packet's destination, where it has one.
    pub fn destination(&self) -> Option<u32>
        ensures { result ≡ destination_of self.now }
    {
        match *self {
            Named::InR1A3(destination, ..)
            | Named::InR1A4(destination, ..)
            | Named::InR2A3(destination)
            | Named::InR2A4(destination)
            | Named::OutR1A1(destination)
            | Named::OutR1A2(destination)
            | Named::OutR1A5(destination, ..)
            | Named::OutR1A6(destination, ..)
            | Named::OutR1A7(destination, _)
            | Named::OutR1A8(destination, _)
            | Named::AckTo(destination, ..) => Some(destination),
            _ => None,
        }
    }

    /// Whether `write_named` takes the packet: a destination is at most 3.
    pub fn may_be_written(&self) -> bool
        ensures { IsTrue result ↔ MayBeWritten self.now }
    {
        match self.destination() {
            Some(destination) => destination <= GREATEST_DESTINATION,
            None => true,
        }
    }
}
