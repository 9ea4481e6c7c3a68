//! A leg as it was read.

ghost use Rattle.rh_audit.specs.Pieces.{all_seen};
ghost use Rattle.rh_audit.specs.Pipes.{pdu_pipe};
ghost use Rattle.rh_audit.specs.Places.{AreBehind, AreIn, behind_prop};

use crate::link::Link;
use crate::pieces::Piece;
use crate::place::Place;
use rh_line::LegKind;
use rh_rts::Cookie;

/// A leg whose first packet was seen, and which holds the places of its RPC PDUs.
#[derive(Drop)]
pub(crate) struct ReadLeg<'a> {
    pub(crate) tag: u64,
    pub(crate) kind: LegKind,
    pub(crate) predecessor: Option<Cookie>,
    pub(crate) newest: Cookie,
    pub(crate) marked: bool,
    pub(crate) lines: &'a [Piece<'a>],
    pub(crate) places: Vec<Place>,
    ghost rising: { AreBehind 0 places.items } by { behind_prop 0 places.items },
    ghost are: { AreIn (pdu_pipe kind) (all_seen lines.now) places.items },
}

impl<'a> ReadLeg<'a> {
    ghost use Rattle.std.specs.Prelude.{◌≡◌};
    ghost use Rattle.rh_audit.specs.Links.{leg_of};
    ghost use Rattle.rh_audit.specs.Reads.{leg_read};

    /// The leg, with its places where they stand here.
    pub(crate) fn link(&self) -> Link<'_>
        ensures { leg_of result ≡ leg_read self.now }
    {
        Link {
            tag: self.tag,
            kind: self.kind,
            predecessor: self.predecessor,
            newest: self.newest,
            marked: self.marked,
            lines: self.lines,
            places: self.places.as_slice(),
        }
    }
}
