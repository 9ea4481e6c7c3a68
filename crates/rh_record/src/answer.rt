//! The lines of a report.

use rh_line::{Cause, Dir, GiveFault, Leg, RecycleFault, Side, State};
use rh_text::Bytes;

/// A node: one role at work. A proxy has its channel's number.
#[derive(Clone, Copy, Debug, PartialEq, Eq)]
pub enum Who {
    Client,
    Server,
    In(u32),
    Out(u32),
}

/// What a take gave.
#[derive(Debug, Drop)]
pub enum TakeAnswer {
    Pdu(Bytes),
    Empty,
    /// The other end gives no more, and all that it gave was taken.
    Ended,
    Closed(Cause),
}

/// One line of a report. The leg `None` is `cs`, the one leg of a direct recording. Where `ok` is
/// false the answer is `no`.
#[derive(Debug, Drop)]
pub enum Answer {
    /// A give: the length of the PDU that was accepted, or why it wasn't.
    Give {
        side: Side,
        answer: Result<u16, GiveFault>,
    },
    /// A take.
    Take {
        side: Side,
        answer: TakeAnswer,
    },
    /// A close of an end.
    Close {
        side: Side,
    },
    /// A send: how many bytes were drawn into flight; `None` where the leg isn't up.
    Send {
        leg: Option<Leg>,
        dir: Dir,
        count: Option<u32>,
    },
    /// A move: the bytes that were fed; `None` where the leg isn't up.
    Move {
        leg: Option<Leg>,
        dir: Dir,
        bytes: Option<Bytes>,
    },
    OpenLeg {
        leg: Leg,
        ok: bool,
    },
    OpenSame {
        leg: Leg,
        ok: bool,
    },
    BreakLeg {
        leg: Leg,
        ok: bool,
    },
    EndLeg {
        leg: Leg,
        dir: Dir,
        ok: bool,
    },
    Tick {
        now: u64,
        ok: bool,
    },
    RecycleIn(Result<(), RecycleFault>),
    RecycleOut(Result<(), RecycleFault>),
    /// A settling: so many rounds did something, and the next did nothing.
    Quiet(u32),
    /// A settling: each of so many rounds did something.
    Spent(u32),
    /// The line before closed that node.
    NodeClosed {
        who: Who,
        cause: Cause,
    },
    /// How many PDUs went up: given at the client, taken at the server.
    Up {
        given: u32,
        taken: u32,
    },
    /// How many PDUs went down: given at the server, taken at the client.
    Down {
        given: u32,
        taken: u32,
    },
    /// What an end is when the recording is over, and the numbers of its IN and OUT channel, which
    /// are not told of a closed end.
    Last {
        side: Side,
        state: State,
        inbound: u32,
        outbound: u32,
    },
}
