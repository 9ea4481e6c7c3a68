//! The lines of a script.

use crate::words::Words;
use rh_line::Leg;
use rh_record::Key;
use rh_rts::Cookie;
use rh_text::Bytes;

/// Which node begins. A proxy has the number of its first channel, from 1.
#[derive(Clone, Copy)]
pub enum Part {
    Client,
    Server,
    InProxy(u32),
    OutProxy(u32),
}

/// What is asked of a leg.
#[derive(Clone, Copy)]
pub enum Ask {
    /// Whether the node asks for it to be connected.
    Wants,
    /// Whether it is wanted, or may be accepted.
    May,
    /// Whether the node has no use for it any more.
    Finished,
}

/// How bytes come.
#[derive(Clone, Copy)]
pub enum Cut {
    /// All in one piece.
    Whole,
    /// One by one.
    Each,
}

/// How a leg is lost.
#[derive(Clone, Copy)]
pub enum Loss {
    /// The other side ended it in order.
    Ended,
    /// It failed, or could not be connected.
    Broken,
}

/// Whether the packets among bytes that are drawn are named.
#[derive(Clone, Copy)]
pub enum Naming {
    On,
    Off,
}

/// What is done or asked with no more words.
#[derive(Clone, Copy)]
pub enum Act {
    /// The next PDU is taken.
    Take,
    /// No PDU will be given any more.
    Close,
    /// The writing channel is to be replaced.
    Recycle,
    /// The state.
    State,
    /// The numbers of the channels in use.
    Channels,
    /// The server that a proxy is to connect.
    Target,
}

/// One line of a script.
#[derive(Drop)]
pub enum Step {
    /// A comment: `#`, and whatever stands behind it.
    Note,
    /// The words behind `case`.
    Case { words: Words },
    /// A number of the nodes that begin behind it, in the range of its key.
    Set { key: Key, value: u32 },
    /// The packets of draws behind it are named, or are not.
    Names(Naming),
    /// A node begins, with no leg. It ends the one before.
    Begin(Part),
    Ask { ask: Ask, leg: Leg },
    /// The leg comes up; the cookie names the channel of a client's leg, and is that of no channel
    /// where none stands here.
    Up { leg: Leg, cookie: Option<Cookie> },
    /// 1 to 65,536 bytes come on the leg.
    Feed { cut: Cut, leg: Leg, bytes: Bytes },
    /// Up to `count` bytes are drawn: 1 to 65,536.
    Draw { leg: Leg, count: u32 },
    Lose { loss: Loss, leg: Leg },
    /// The moment, in milliseconds: 0 to 9,223,372,036,854,775,807.
    Tick { now: u64 },
    /// A PDU is offered at an end: 1 to 65,536 bytes.
    Give { pdu: Bytes },
    Act(Act),
    /// Which kind of leg of a server begins with these bytes.
    First { bytes: Bytes },
}
