//! The rounds of a settling, as its answers show them.

ghost use Rattle.std.specs.Prelude.{◌≡◌, ◌∷◌};
ghost use Rattle.rh_story.specs.Rounds as seen;
ghost use Rattle.rh_story.specs.Streams.{key_of};

use crate::streams::{dir_place, kind_place};
use rh_line::{Dir, Leg, Side};
use rh_record::{Answer, Line};

/// A settling: how many of its rounds began, and where in a round the last answer stands.
#[derive(Clone, Copy, Debug)]
pub(crate) struct Settling {
    pub(crate) rounds: u64,
    pub(crate) place: Option<[u32; 4]>,
}

/// The settling that a line begins.
pub(crate) fn settling_of(line: &Line) -> Option<Settling>
    ensures { result ≡ seen.settling_of line.now }
{
    match line {
        Line::Settle { .. } => Some(Settling {
            rounds: 0,
            place: None,
        }),
        _ => None,
    }
}

/// The place of an end in the part where ends take.
fn side_place(side: Side) -> u32
    ensures { result ≡ seen.side_place side }
{
    match side {
        Side::Client => 0,
        Side::Server => 1,
    }
}

/// The place of a leg and a direction in a part of a round.
fn leg_place(part: u32, leg: Option<Leg>, dir: Dir) -> [u32; 4]
    ensures { result ≡ part ∷ key_of leg dir }
{
    match leg {
        None => [part, 0, 0, dir_place(dir)],
        Some(leg) => [part, kind_place(leg.kind), leg.number, dir_place(dir)],
    }
}

/// Where an answer stands in a round; `None` of one that stands in none.
fn place_of(answer: &Answer) -> Option<[u32; 4]>
    ensures { result ≡ seen.place_of answer.now }
{
    match answer {
        Answer::OpenLeg { leg, .. } | Answer::OpenSame { leg, .. } => {
            Some(leg_place(1, Some(*leg), Dir::U))
        }
        Answer::Move { leg, dir, .. } => Some(leg_place(2, *leg, *dir)),
        Answer::Take { side, .. } => Some([3, 0, 0, side_place(*side)]),
        Answer::EndLeg { leg, .. } => Some(leg_place(4, Some(*leg), Dir::U)),
        _ => None,
    }
}

impl Settling {
    ghost use Rattle.std.specs.Prelude.{◌≡◌};
    ghost use Rattle.rh_story.specs.Rounds as seen;

    /// Whether an answer at this place is of the round of the one before.
    fn goes_on(self, place: [u32; 4]) -> bool
        ensures { result ≡ seen.goes_on self.place place }
    {
        match self.place {
            Some(before) => before.cmp(&place).is_lt(),
            None => false,
        }
    }

    /// The number of the round of an answer at this place.
    fn round_of(self, place: [u32; 4]) -> u64
        ensures { result ≡ seen.round_of self place }
    {
        if self.goes_on(place) {
            self.rounds
        } else {
            self.rounds.saturating_add(1)
        }
    }

    /// The settling behind an answer.
    pub(crate) fn behind(self, answer: &Answer) -> Settling
        ensures { result ≡ seen.behind_place self (seen.place_of answer.now) }
    {
        match place_of(answer) {
            None => self,
            Some(place) => Settling {
                rounds: self.round_of(place),
                place: Some(place),
            },
        }
    }

    /// The number of the round that an answer begins; `None` where it goes on with one, or stands
    /// in none.
    pub(crate) fn begins(self, answer: &Answer) -> Option<u64>
        ensures { result ≡ seen.begins_at self (seen.place_of answer.now) }
    {
        match place_of(answer) {
            Some(place) if !self.goes_on(place) => Some(self.round_of(place)),
            _ => None,
        }
    }
}
