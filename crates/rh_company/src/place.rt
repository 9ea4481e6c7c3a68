//! The place of a proxy: it is made when its client's leg comes up, and let go when it is of no
//! more use.

ghost use Rattle.std.specs.Prelude.{◌≡◌, ◌≤◌, length, take, drop};
ghost use Rattle.rh_company.specs.Places as seen;

use crate::event::Event;
use crate::telling::tell;
use rh_line::{Cause, Leg, State};
use rh_rts::Cookie;
use rh_shell::{Role, Shell};
use rh_wires::Item;

/// The place of a proxy.
#[derive(Drop)]
pub enum Place<R> {
    /// None was made.
    Absent,
    /// A proxy, and how many of its legs are up for it: at the end of the type, that many or more.
    Here { node: Shell<R>, legs: u32 },
    /// The proxy ended or closed, and none of its legs is up any more: nothing that it could be
    /// told would change it. This was its last moment, in milliseconds.
    Gone { now: u64 },
}

/// How many legs are up when one of so many is not any more. A count that stood still at the end of
/// its type says no more how many there are, so it stays.
fn one_fewer(legs: u32) -> u32
    ensures { result ≡ seen.one_fewer legs }
{
    if legs == u32::MAX {
        legs
    } else {
        legs.saturating_sub(1)
    }
}

/// Whether a node neither ended nor closed.
fn is_working<R: Role>(node: &Shell<R>) -> bool
    ensures { result ≡ seen.is_working R.rules node.entry.now }
{
    matches!(node.state(), State::Opening | State::Open)
}

impl<R: Role> Item for Place<R> {
    ghost use Rattle.rh_company.specs.declared.place.Place.TheVariants.{Absent};
    ghost use Rattle.rh_company.specs.Places as seen;

    ghost blank = { Absent };

    ghost is_idle = { seen.is_idle };

    fn blank() -> Place<R> {
        Place::Absent
    }

    /// Whether nothing happens there when time passes, and no leg is wanted.
    fn is_idle(&self) -> bool {
        match self {
            Place::Here { .. } => false,
            Place::Absent | Place::Gone { .. } => true,
        }
    }
}

impl<R: Role> Place<R> {
    /// Whether no proxy was made.
    pub(crate) fn is_absent(&self) -> bool
        ensures { result ≡ seen.is_absent self.now }
    {
        match self {
            Place::Absent => true,
            Place::Here { .. } | Place::Gone { .. } => false,
        }
    }

    /// The last moment of the proxy, in milliseconds.
    pub(crate) fn now(&self) -> Option<u64>
        ensures { result ≡ seen.last_moment self.now }
    {
        match self {
            Place::Absent => None,
            Place::Here { node, .. } => Some(node.now()),
            Place::Gone { now } => Some(*now),
        }
    }

    /// Whether the proxy asks for the leg to be connected.
    pub(crate) fn wants(&self, leg: Leg) -> bool
        ensures { result ≡ seen.wants R.rules leg self.now }
    {
        match self {
            Place::Here { node, .. } => node.wants(leg),
            Place::Absent | Place::Gone { .. } => false,
        }
    }

    /// Whether the proxy may have the leg up.
    pub(crate) fn may_up(&self, leg: Leg) -> bool
        ensures { result ≡ seen.may_up R.rules leg self.now }
    {
        match self {
            Place::Here { node, .. } => node.may_up(leg),
            Place::Absent | Place::Gone { .. } => false,
        }
    }

    /// Whether the proxy has no use for the leg any more, and nothing left to draw.
    pub(crate) fn finished(&self, leg: Leg) -> bool
        ensures { result ≡ seen.finished R.rules leg self.now }
    {
        match self {
            Place::Absent => false,
            Place::Here { node, .. } => node.finished(leg),
            Place::Gone { .. } => true,
        }
    }

    /// The leg is up for the proxy.
    pub(crate) fn up(&mut self, leg: Leg, cookie: Cookie)
        ensures { self.new ≡ seen.up R.rules leg cookie self.old }
    {
        match self {
            Place::Here { node, legs } => {
                node.up(leg, cookie);
                *legs = legs.saturating_add(1);
            }
            Place::Absent | Place::Gone { .. } => {}
        }
    }

    /// Tells the proxy something, and answers the cause with which that closed it.
    pub(crate) fn tell(&mut self, event: &Event) -> Option<Cause>
        ensures { (self.new, result) ≡ seen.tell R.rules event.now self.old }
    {
        match self {
            Place::Here { node, .. } => tell(node, event),
            Place::Absent | Place::Gone { .. } => None,
        }
    }

    /// Draws the next bytes of the leg into the front of the room, and answers how many.
    pub(crate) fn draw(&mut self, leg: Leg, room: &mut [u8]) -> usize
        ensures drawn { (self.new, take result room.new)
            ≡ seen.draw R.rules leg (length room.old) self.old }
        ensures fits { result ≤ length room.old }
    {
        match self {
            Place::Here { node, .. } => node.draw(leg, room),
            Place::Absent | Place::Gone { .. } => 0,
        }
    }

    /// A leg is not up for the proxy any more. It is let go where that was the last one, and the
    /// proxy ended or closed; never, where more legs were up than are counted.
    pub(crate) fn leave(&mut self)
        ensures { self.new ≡ seen.leave R.rules self.old }
    {
        if let Place::Here { node, legs } = self {
            if *legs > 1 || is_working(node) {
                *legs = one_fewer(*legs);
            } else {
                let now = node.now();
                *self = Place::Gone { now };
            }
        }
    }
}
