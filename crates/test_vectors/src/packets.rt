//! RTS packets by hand (MS-RPCH 2.2.3).
//!
//! The cookie N is 15 bytes of zero, and then N.

/// The first packet of an OUT channel: version 1, the cookies 1 and 3, a window of 65,536 bytes.
pub const CONN_A1: [u8; 76] = [
    5, 0, 20, 3, 0x10, 0, 0, 0, 76, 0, 0, 0, 0, 0, 0, 0, 0, 0, 4, 0, //
    6, 0, 0, 0, 1, 0, 0, 0, //
    3, 0, 0, 0, 0, 0, 0, 0, 0, 0, 0, 0, 0, 0, 0, 0, 0, 0, 0, 1, //
    3, 0, 0, 0, 0, 0, 0, 0, 0, 0, 0, 0, 0, 0, 0, 0, 0, 0, 0, 3, //
    0, 0, 0, 0, 0, 0, 1, 0,
];
/// The first packet to a client: a connection timeout of 120,000 ms.
pub const CONN_A3: [u8; 28] = [
    5, 0, 20, 3, 0x10, 0, 0, 0, 28, 0, 0, 0, 0, 0, 0, 0, 0, 0, 1, 0, 2, 0, 0, 0, 0xc0, 0xd4, 1, 0,
];
/// The first packet of an IN channel: version 1, the cookies 1 and 4, a lifetime of 2^30 bytes, a
/// keepalive each 300,000 ms, the group 2.
pub const CONN_B1: [u8; 104] = [
    5, 0, 20, 3, 0x10, 0, 0, 0, 104, 0, 0, 0, 0, 0, 0, 0, 0, 0, 6, 0, //
    6, 0, 0, 0, 1, 0, 0, 0, //
    3, 0, 0, 0, 0, 0, 0, 0, 0, 0, 0, 0, 0, 0, 0, 0, 0, 0, 0, 1, //
    3, 0, 0, 0, 0, 0, 0, 0, 0, 0, 0, 0, 0, 0, 0, 0, 0, 0, 0, 4, //
    4, 0, 0, 0, 0, 0, 0, 0x40, //
    5, 0, 0, 0, 0xe0, 0x93, 4, 0, //
    12, 0, 0, 0, 0, 0, 0, 0, 0, 0, 0, 0, 0, 0, 0, 0, 0, 0, 0, 2,
];
/// An acknowledgement that is passed on to the server: 32,768 bytes received, a window of 65,536,
/// the cookie 9.
pub const ACK_TO_SERVER: [u8; 56] = [
    5, 0, 20, 3, 0x10, 0, 0, 0, 56, 0, 0, 0, 0, 0, 0, 0, 2, 0, 2, 0, //
    13, 0, 0, 0, 2, 0, 0, 0, //
    1, 0, 0, 0, 0, 0x80, 0, 0, 0, 0, 1, 0, 0, 0, 0, 0, 0, 0, 0, 0, 0, 0, 0, 0, 0, 0, 0, 9,
];
/// A keep-alive interval of 60,000 ms.
pub const KEEP_ALIVE: [u8; 28] = [
    5, 0, 20, 3, 0x10, 0, 0, 0, 28, 0, 0, 0, 0, 0, 0, 0, 2, 0, 1, 0, 5, 0, 0, 0, 0x60, 0xea, 0, 0,
];
/// A ping: no command.
pub const PING: [u8; 20] = [
    5, 0, 20, 3, 0x10, 0, 0, 0, 20, 0, 0, 0, 0, 0, 0, 0, 1, 0, 0, 0,
];
/// An echo: no command.
pub const ECHO: [u8; 20] = [
    5, 0, 20, 3, 0x10, 0, 0, 0, 20, 0, 0, 0, 0, 0, 0, 0, 0x40, 0, 0, 0,
];
/// Five bytes of padding, and then a command without fields.
pub const PADDED: [u8; 37] = [
    5, 0, 20, 3, 0x10, 0, 0, 0, 37, 0, 0, 0, 0, 0, 0, 0, 0, 0, 2, 0, //
    8, 0, 0, 0, 5, 0, 0, 0, 1, 2, 3, 4, 5, //
    10, 0, 0, 0,
];
/// The address 2001:db8::7 of a client, with padding that isn't zero.
pub const ADDRESS: [u8; 56] = [
    5, 0, 20, 3, 0x10, 0, 0, 0, 56, 0, 0, 0, 0, 0, 0, 0, 8, 0, 1, 0, //
    11, 0, 0, 0, 1, 0, 0, 0, 0x20, 1, 0x0d, 0xb8, 0, 0, 0, 0, 0, 0, 0, 0, 0, 0, 0, 7, //
    1, 2, 3, 4, 5, 6, 7, 8, 9, 10, 11, 12,
];
/// Each command that the packets above don't have.
pub const OTHERS: [u8; 84] = [
    5, 0, 20, 3, 0x10, 0, 0, 0, 84, 0, 0, 0, 0, 0, 0, 0, 0x7f, 0, 6, 0, //
    2, 0, 0, 0, 0xc0, 0xd4, 1, 0, //
    7, 0, 0, 0, //
    9, 0, 0, 0, //
    14, 0, 0, 0, 1, 2, 3, 4, //
    11, 0, 0, 0, 0, 0, 0, 0, 127, 0, 0, 1, 0, 0, 0, 0, 0, 0, 0, 0, 0, 0, 0, 0, //
    8, 0, 0, 0, 8, 0, 0, 0, 8, 7, 6, 5, 4, 3, 2, 1,
];
/// The greatest destination, and an address of 4 bytes with padding that isn't zero.
pub const DESTINATION_AND_V4: [u8; 52] = [
    5, 0, 20, 3, 0x10, 0, 0, 0, 52, 0, 0, 0, 0, 0, 0, 0, 0, 0, 2, 0, //
    13, 0, 0, 0, 3, 0, 0, 0, //
    11, 0, 0, 0, 0, 0, 0, 0, 127, 0, 0, 1, 1, 2, 3, 4, 5, 6, 7, 8, 9, 10, 11, 12,
];
