//! How legs and nodes end.

ghost use Rattle.std.specs.Prelude.{◌≡◌, ◌⊎◌};
ghost use Rattle.rh_legs.specs.NodeEnds.{rank_of, told_of};

use rh_line::Cause;

/// Why a leg is read or written no more.
#[derive(Clone, Copy)]
pub enum LegEnd {
    /// The machine has no use for it, and nothing is left to draw.
    Finished,
    /// Its source is at its end.
    Ended,
    /// Its source or sink failed.
    Failed,
    /// Too many pieces came of which there was no use; or the node was stopped.
    Stopped,
}

/// How a node ended.
#[derive(Clone, Copy, PartialEq, Eq)]
pub enum NodeEnd {
    /// In order.
    Ended,
    /// Its machine closed, with the first cause.
    Closed(Cause),
    /// The input has no PDU at this place: so many were given before.
    BadInput(u64),
    /// The input failed.
    ReadFault,
    /// The output failed.
    WriteFault,
    /// The net failed.
    NetFault,
    /// Its jobs could not be started.
    SpawnFault,
    NoMemory,
    /// No cookie came.
    CookieFault,
}

impl NodeEnd {
    /// The order in which ends are told where there are several, the first one first.
    fn rank(&self) -> u8
        ensures { result ≡ rank_of self.now }
    {
        match self {
            NodeEnd::NoMemory => 0,
            NodeEnd::BadInput(_) => 1,
            NodeEnd::ReadFault => 2,
            NodeEnd::WriteFault => 3,
            NodeEnd::NetFault => 4,
            NodeEnd::SpawnFault => 5,
            NodeEnd::CookieFault => 6,
            NodeEnd::Closed(_) => 7,
            NodeEnd::Ended => 8,
        }
    }

    /// The one of two that is told.
    pub fn or(self, other: NodeEnd) -> NodeEnd
        ensures told { result ≡ told_of self other }
        ensures either { (result ≡ self) ⊎ (result ≡ other) }
    {
        if other.rank() < self.rank() {
            other
        } else {
            self
        }
    }
}
