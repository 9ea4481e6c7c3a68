//! The lines of a recording.

use rh_line::{Dir, Leg, Side};
use rh_text::Bytes;

/// What a `set` line sets, for all nodes of a kind.
#[derive(Clone, Copy, Debug, PartialEq, Eq)]
pub enum Key {
    /// The window of the client, in bytes: 8,192 to 262,144.
    Cwin,
    /// The window of the in proxies.
    Iwin,
    /// The window of the out proxies.
    Owin,
    /// The window of the server.
    Swin,
    /// The lifetime of an IN channel, in bytes: 131,072 to 2,147,483,648.
    Ilife,
    /// The lifetime of an OUT channel, in bytes.
    Olife,
    /// The connection timeout of the in proxies, in milliseconds: 120,000 to 14,400,000.
    Itime,
    /// The connection timeout of the out proxies, in milliseconds.
    Otime,
    /// The client's keepalive, in milliseconds: 0, which means 300,000, or 60,000 to 4,294,967,295.
    Keep,
    /// Whether settling opens an IN successor at the proxy of its predecessor: 0 or 1.
    Same,
}

/// One line of a recording. The leg `None` is `cs`, the one leg of a direct recording.
#[derive(Debug, Drop)]
pub enum Line {
    /// The first line: `rh 1 direct` or `rh 1 roles`.
    First {
        roles: bool,
    },
    /// A number of the configuration, in the range of its key.
    Set {
        key: Key,
        value: u32,
    },
    /// A PDU is offered at an end: 1 to 65,536 bytes.
    Give {
        side: Side,
        pdu: Bytes,
    },
    /// The next PDU is asked for at an end.
    Take {
        side: Side,
    },
    /// No PDU will be given any more at an end.
    Close {
        side: Side,
    },
    /// Up to `count` bytes are drawn into flight: 1 to 65,536.
    Send {
        leg: Option<Leg>,
        dir: Dir,
        count: u32,
    },
    /// Up to `count` bytes of those in flight are fed: 1 to 65,536.
    Move {
        leg: Option<Leg>,
        dir: Dir,
        count: u32,
    },
    /// The leg is connected; a client's leg gets a proxy of its own.
    OpenLeg {
        leg: Leg,
    },
    /// The client's IN leg is connected to the proxy that reads the channel before it.
    OpenSame {
        leg: Leg,
    },
    /// The leg fails.
    BreakLeg {
        leg: Leg,
    },
    /// The side that sends in that direction ends the leg in order.
    EndLeg {
        leg: Leg,
        dir: Dir,
    },
    /// The moment, in milliseconds: 0 to 9,223,372,036,854,775,807.
    Tick {
        now: u64,
    },
    /// The client is asked to replace the IN channel.
    RecycleIn,
    /// The server is asked to replace the OUT channel.
    RecycleOut,
    /// All that can go on does, for at most so many rounds: 1 to 100,000.
    Settle {
        rounds: u32,
    },
}

/// What a line may be at its place: the header, which is the first line, or a line of a direct
/// recording, or one of a recording of roles.
#[derive(Clone, Copy, Debug, PartialEq, Eq)]
pub enum RecordKind {
    Header,
    Direct,
    Roles,
}
