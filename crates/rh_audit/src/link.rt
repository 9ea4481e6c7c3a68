//! A leg with its lines and its places where they stand.

ghost use Rattle.rh_audit.specs.Pieces.{all_seen};
ghost use Rattle.rh_audit.specs.Pipes.{pdu_pipe};
ghost use Rattle.rh_audit.specs.Places.{AreBehind, AreIn, behind_prop};

use crate::pieces::Piece;
use crate::place::Place;
use rh_line::LegKind;
use rh_rts::Cookie;

/// A leg whose first packet was seen.
#[derive(Clone, Copy)]
pub(crate) struct Link<'a> {
    pub(crate) tag: u64,
    pub(crate) kind: LegKind,
    /// The cookie of the channel that it replaces.
    pub(crate) predecessor: Option<Cookie>,
    /// The cookie that its channel had last.
    pub(crate) newest: Cookie,
    /// Whether its handover mark was seen.
    pub(crate) marked: bool,
    pub(crate) lines: &'a [Piece<'a>],
    /// Where its RPC PDUs stand.
    pub(crate) places: &'a [Place],
    ghost rising: { AreBehind 0 places.now } by { behind_prop 0 places.now },
    ghost are: { AreIn (pdu_pipe kind) (all_seen lines.now) places.now },
}
