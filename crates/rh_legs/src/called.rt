//! Whom an event of a node concerns.

use rh_line::{Leg, LegKind, Take, Verdict};
use rh_machines::{NodeEvent, NodeReply, Role};

/// Which jobs are called; of writers, those of legs of a kind.
#[derive(Clone, Copy)]
pub(crate) struct Called {
    pub(crate) client_out: bool,
    pub(crate) out_server: bool,
    pub(crate) client_in: bool,
    pub(crate) in_server: bool,
    pub(crate) takes: bool,
    pub(crate) gives: bool,
    pub(crate) keeps: bool,
}

/// Nobody.
pub(crate) const NONE: Called = Called {
    client_out: false,
    out_server: false,
    client_in: false,
    in_server: false,
    takes: false,
    gives: false,
    keeps: false,
};

/// Everybody but the keeper.
pub(crate) const WORKERS: Called = Called {
    client_out: true,
    out_server: true,
    client_in: true,
    in_server: true,
    takes: true,
    gives: true,
    ..NONE
};

/// Everybody.
pub(crate) const ALL: Called = Called {
    keeps: true,
    ..WORKERS
};

impl Called {
    /// Those of both.
    pub(crate) fn and(self, other: Called) -> Called {
        Called {
            client_out: self.client_out || other.client_out,
            out_server: self.out_server || other.out_server,
            client_in: self.client_in || other.client_in,
            in_server: self.in_server || other.in_server,
            takes: self.takes || other.takes,
            gives: self.gives || other.gives,
            keeps: self.keeps || other.keeps,
        }
    }
}

/// The writers of legs of a kind.
fn writers(kind: LegKind) -> Called {
    match kind {
        LegKind::ClientOut => Called {
            client_out: true,
            ..NONE
        },
        LegKind::OutServer => Called {
            out_server: true,
            ..NONE
        },
        LegKind::ClientIn => Called {
            client_in: true,
            ..NONE
        },
        LegKind::InServer => Called {
            in_server: true,
            ..NONE
        },
    }
}

/// Whom an event concerns.
#[derive(Clone, Copy)]
pub(crate) enum Concern {
    /// It only asks something.
    Nobody,
    /// It is one of those that come again and again while PDUs pass, and mostly concerns these
    /// alone.
    Mostly(Called),
    Everybody,
}

/// On legs of which kind the PDUs come that an end takes.
fn kind_of_taken(role: Role) -> LegKind {
    match role {
        Role::Server => LegKind::InServer,
        _ => LegKind::ClientOut,
    }
}

/// On legs of which kind the PDUs go that an end is given.
fn kind_of_given(role: Role) -> LegKind {
    match role {
        Role::Server => LegKind::OutServer,
        _ => LegKind::ClientIn,
    }
}

/// The writers who mostly have something to draw behind a piece that came on a leg: PDUs, or the
/// acknowledgements that it brought.
fn writers_behind_bytes(role: Role, leg: Leg) -> Called {
    match role {
        Role::Client => writers(LegKind::ClientIn),
        Role::InProxy => writers(LegKind::InServer),
        Role::OutProxy => match leg.kind {
            LegKind::ClientOut => writers(LegKind::OutServer),
            _ => writers(LegKind::ClientOut),
        },
        Role::Server => writers(LegKind::OutServer),
    }
}

/// The writers who have something to draw behind what was drawn: an out proxy acknowledges PDUs that
/// went on to the client.
fn writers_behind_draw(role: Role, leg: Leg) -> Called {
    match (role, leg.kind) {
        (Role::OutProxy, LegKind::ClientOut) => writers(LegKind::OutServer),
        _ => NONE,
    }
}

/// On which leg an end acknowledges the PDUs that it takes.
fn writers_behind_take(role: Role) -> Called {
    match role {
        Role::Server => writers(LegKind::InServer),
        _ => writers(LegKind::ClientIn),
    }
}

/// Whom an event concerns, before its reply is known.
pub(crate) fn concern_of(role: Role, event: &NodeEvent) -> Concern {
    match event {
        NodeEvent::Up { .. }
        | NodeEvent::Ended(_)
        | NodeEvent::Broken(_)
        | NodeEvent::Tick(_)
        | NodeEvent::Close
        | NodeEvent::Recycle => Concern::Everybody,
        NodeEvent::Bytes { leg, .. } => Concern::Mostly(Called {
            takes: leg.kind == kind_of_taken(role),
            keeps: true,
            ..writers_behind_bytes(role, *leg)
        }),
        NodeEvent::Draw { leg, .. } => Concern::Mostly(Called {
            gives: leg.kind == kind_of_given(role),
            keeps: true,
            ..writers_behind_draw(role, *leg)
        }),
        NodeEvent::Take(_) => Concern::Mostly(Called {
            keeps: true,
            ..writers_behind_take(role)
        }),
        NodeEvent::Give(_) => Concern::Mostly(writers(kind_of_given(role))),
        NodeEvent::Wants(_) | NodeEvent::Finished(_) | NodeEvent::State | NodeEvent::Target => {
            Concern::Nobody
        }
    }
}

/// Whom an event of this concern concerns, which was replied so.
pub(crate) fn concern_behind(concern: Concern, reply: &NodeReply) -> Concern {
    if is_idle(reply) {
        Concern::Nobody
    } else if is_end(reply) {
        Concern::Everybody
    } else {
        concern
    }
}

// Whether the reply says that nothing changed.
fn is_idle(reply: &NodeReply) -> bool {
    match reply {
        NodeReply::Drawn(piece) => piece.bytes().is_empty(),
        NodeReply::Taken { answer, .. } => matches!(answer, Take::Empty),
        NodeReply::Given { given, .. } => given.is_err(),
        NodeReply::NotHere => true,
        _ => false,
    }
}

// Whether the reply says that the node ended, or has no use for the leg.
fn is_end(reply: &NodeReply) -> bool {
    match reply {
        NodeReply::Fed {
            verdict,
            finished,
            ..
        } => *finished || !matches!(verdict, Verdict::Going),
        NodeReply::Taken { answer, .. } => matches!(answer, Take::Ended | Take::Closed(_)),
        _ => false,
    }
}
