//! What the machine of a node takes, and what it replies.

use crate::block::{Block, TakeRoom};
use crate::piece::{DrawRoom, Piece};
use rh_http::Host;
use rh_line::{GiveFault, Leg, RecycleFault, State, Take, Verdict};
use rh_rts::Cookie;
use std::marker::Model;

/// The server that a proxy's client named. Contracts see the text of its host, and its port.
#[derive(Drop)]
pub struct Server {
    pub host: Host,
    pub port: u16,
}

impl Model for Server {
    ghost use Rattle.std.specs.Prelude.{ℕ, List};
    ghost use Rattle.rh_http.specs.Requests.{host_text};

    ghost Value = { List ℕ × ℕ };

    ghost view = { λ s. (host_text s.host, s.port) };
}

/// An event of a node: one call of its core. What it brings on the heap, the reply brings back.
#[derive(Drop)]
pub enum NodeEvent {
    /// Whether the leg is to be connected.
    Wants(Leg),
    /// The leg is up, where it may be. A client keeps the cookie; the others have no use for it.
    Up { leg: Leg, cookie: Cookie },
    /// A piece came on the leg.
    Bytes { leg: Leg, piece: Piece },
    /// The other side ended the leg in order.
    Ended(Leg),
    /// The leg failed, or can't be connected.
    Broken(Leg),
    /// The next bytes of the leg are drawn into the room.
    Draw { leg: Leg, room: DrawRoom },
    /// Whether there is no use for the leg any more and nothing is left to draw.
    Finished(Leg),
    /// The moment, in milliseconds.
    Tick(u64),
    State,
    /// Which server a proxy's client named.
    Target,
    /// A PDU is given to the other end.
    Give(Block),
    /// The next PDU of the other end is taken into the room.
    Take(TakeRoom),
    /// No PDU will be given any more.
    Close,
    /// The channel on which an end writes is to be replaced.
    Recycle,
}

/// The reply to an event.
#[derive(Drop)]
pub enum NodeReply {
    /// To `Wants`, `Up` and `Finished`: whether it is so.
    Told(bool),
    /// To `Ended`, `Broken` and `Tick`.
    Verdict(Verdict),
    /// To `Bytes`: the verdict, whether the leg is finished behind it, and the piece that came.
    Fed {
        verdict: Verdict,
        finished: bool,
        piece: Piece,
    },
    /// To `Draw`: the bytes, none where none may go.
    Drawn(Piece),
    State(State),
    /// To `Target`, at a proxy.
    Target(Option<Server>),
    /// To `Give`: whether it was taken in, and the block that came.
    Given {
        given: Result<(), GiveFault>,
        block: Block,
    },
    /// To `Take`: the PDU stands in the block, and where there is none it is empty.
    Taken {
        answer: Take,
        block: Block,
    },
    Recycled(Result<(), RecycleFault>),
    /// To `Close`.
    Done,
    /// The role has no such call. Nothing changed.
    NotHere,
}
