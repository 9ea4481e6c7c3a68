//! The grammar of recordings of roles.

use rh_record::{Line, Place, Recording};
use rh_text::Grammar;

/// The grammar of recordings of roles: that of recordings, of which no first line is another's.
#[derive(Clone, Copy, Debug)]
pub struct RolesRecording;

impl Grammar for RolesRecording {
    ghost use Rattle.rh_capture.specs.Recordings.{roles_recording};
    ghost use Rattle.rh_capture.specs.RecordingLaws.{one_line, none_empty};

    type Place = Place;

    type Line = Line;

    ghost rules = { roles_recording };

    fn first_place() -> Place {
        Place::Header
    }

    fn may_end(place: Place) -> bool {
        !matches!(place, Place::Header)
    }

    fn judge_line(text: &[u8], place: Place) -> Option<Place> {
        let next = Recording::judge_line(text, place)?;
        if matches!(next, Place::Direct) {
            None
        } else {
            Some(next)
        }
    }

    ghost one = { one_line };

    ghost some = { none_empty };
}
