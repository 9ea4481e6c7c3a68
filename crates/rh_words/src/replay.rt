//! Replays a recording.

use crate::retelling::Retelling;
use rh_io::Sink;
use rh_record::{Place, Recording};
use rh_teller::Reporter;
use rh_word::{Unfinished, Word};
use std::alloc::{AllocError, Global};

/// The word `replay`: reads a recording and writes its report.
pub type Replay = Retelling<Reporter>;

impl Word<Recording> for Retelling<Reporter> {
    ghost use Rattle.rh_teller.specs.Reports.{report};
    ghost use Rattle.rh_world.specs.Any.{given};
    ghost use Rattle.rh_words.specs.Replay.{IsReplayed};
    ghost use Rattle.rh_words.specs.Retelling.{retelling};
    ghost use Rattle.rh_words.specs.Replays.{goes_on, comes_to_end, means};

    ghost deeds = { retelling report };

    ghost says = { IsReplayed };

    ghost done = { λ s. given s.world };

    fn start(alloc: Global) -> Result<Retelling<Reporter>, AllocError> {
        Retelling::begin(alloc)
    }

    fn write_line<W: Sink>(
        &mut self,
        alloc: Global,
        line: &[u8],
        place: Place,
        gathered: &mut String,
        output: &mut W,
    ) -> Result<Place, Unfinished> {
        self.do_line::<W>(alloc, line, place, gathered, output)
    }

    fn finish(&mut self, alloc: Global, out: &mut String) -> Result<(), AllocError> {
        self.tell_last(alloc, out)
    }

    ghost goes_on = { goes_on };

    ghost comes_to_end = { comes_to_end };

    ghost means = { means };
}
