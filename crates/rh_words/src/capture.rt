//! Writes the capture of a run.

use crate::retelling::Retelling;
use rh_capture::{RolesRecording, Tags};
use rh_io::Sink;
use rh_record::Place;
use rh_word::{Unfinished, Word};
use std::alloc::{AllocError, Global};

/// The word `capture`: reads a recording of roles and writes the capture of its run.
pub type Capture = Retelling<Tags>;

impl Word<RolesRecording> for Retelling<Tags> {
    ghost use Rattle.rh_capture.specs.Telling.{capturing};
    ghost use Rattle.rh_world.specs.Any.{given};
    ghost use Rattle.rh_words.specs.Capture.{IsCaptured};
    ghost use Rattle.rh_words.specs.Retelling.{retelling};
    ghost use Rattle.rh_words.specs.Captures.{goes_on, comes_to_end, means};

    ghost deeds = { retelling capturing };

    ghost says = { IsCaptured };

    ghost done = { λ s. given s.world };

    fn start(alloc: Global) -> Result<Retelling<Tags>, AllocError> {
        Retelling::begin(alloc)
    }

    fn write_line<W: Sink>(
        &mut self,
        alloc: Global,
        line: &[u8],
        place: Place,
        gathered: &mut String,
        output: &mut W,
    ) -> Result<Place, Unfinished> {
        self.do_line::<W>(alloc, line, place, gathered, output)
    }

    fn finish(&mut self, alloc: Global, out: &mut String) -> Result<(), AllocError> {
        self.tell_last(alloc, out)
    }

    ghost goes_on = { goes_on };

    ghost comes_to_end = { comes_to_end };

    ghost means = { means };
}
