//! What a role answers to what comes.

use rh_http::HttpFault;
use rh_line::Leg;
use rh_rts::Cookie;
use rh_window::WindowExceeded;

/// How far a role has come while it works.
#[derive(Clone, Copy)]
pub enum Phase {
    Opening,
    Open,
    /// The work is done: on no leg anything is taken or put any more.
    Ended,
}

/// How many packets came on a leg before, Pings apart, as far as rows ask.
#[derive(Clone, Copy)]
pub enum Count {
    Zero,
    One,
    More,
}

/// What the bytes behind a head are.
#[derive(Clone, Copy)]
pub enum Behind {
    /// Packets and RPC PDUs.
    Frames,
    /// The body of an echo request, which is passed over.
    PassedOver,
}

/// A head that a role takes.
#[derive(Clone, Copy)]
pub struct HeadTaken {
    /// What is behind it.
    pub behind: Behind,
    /// The most bytes that may come behind it.
    pub length: u32,
}

/// Why a role does not take a head: the shell makes a cause of it.
#[derive(Clone, Copy)]
pub enum HeadRefused {
    /// A request is at fault, and is refused by a head.
    Request(HttpFault),
    /// A response is at fault.
    Response(HttpFault),
    /// A response with this status, which is not taken here.
    Status(u16),
}

/// Why a row of a role's table refuses what came: the shell makes a cause of it.
#[derive(Clone, Copy)]
pub enum Refused {
    /// No row's condition holds.
    Unexpected,
    /// Another cookie than the one that was expected.
    Cookie { expected: Cookie, got: Cookie },
    /// An RPC PDU that ends behind the edge of its window.
    Window(WindowExceeded),
    /// A value out of its range, in a command of this type.
    OutOfRange { command: u32, value: u32 },
    /// There is no room for a further packet that is to be forwarded on this leg.
    Full { leg: Leg },
}
