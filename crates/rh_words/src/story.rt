//! Tells a recording as a story.

use crate::retelling::Retelling;
use rh_io::Sink;
use rh_record::{Place, Recording};
use rh_story::{HexStory, Story};
use rh_word::{Unfinished, Word};
use std::alloc::{AllocError, Global};

/// The word `story`: reads a recording and tells it to people.
pub type StoryWord = Retelling<Story>;

impl Word<Recording> for Retelling<Story> {
    ghost use Rattle.std.specs.Prelude.{false};
    ghost use Rattle.rh_story.specs.Tale.{story};
    ghost use Rattle.rh_world.specs.Any.{given};
    ghost use Rattle.rh_words.specs.Story.{IsStory};
    ghost use Rattle.rh_words.specs.Retelling.{retelling};
    ghost use Rattle.rh_words.specs.Stories.{goes_on, comes_to_end, means};

    ghost deeds = { retelling (story false) };

    ghost says = { IsStory false };

    ghost done = { λ s. given s.world };

    fn start(alloc: Global) -> Result<Retelling<Story>, AllocError> {
        Retelling::begin(alloc)
    }

    fn write_line<W: Sink>(
        &mut self,
        alloc: Global,
        line: &[u8],
        place: Place,
        gathered: &mut String,
        output: &mut W,
    ) -> Result<Place, Unfinished> {
        self.do_line::<W>(alloc, line, place, gathered, output)
    }

    fn finish(&mut self, alloc: Global, out: &mut String) -> Result<(), AllocError> {
        self.tell_last(alloc, out)
    }

    ghost goes_on = { goes_on false };

    ghost comes_to_end = { comes_to_end false };

    ghost means = { means false };
}

/// The words `story hex`: the same, with the bytes of each packet, PDU and head in hex.
pub type HexStoryWord = Retelling<HexStory>;

impl Word<Recording> for Retelling<HexStory> {
    ghost use Rattle.std.specs.Prelude.{true};
    ghost use Rattle.rh_story.specs.Tale.{story};
    ghost use Rattle.rh_world.specs.Any.{given};
    ghost use Rattle.rh_words.specs.Story.{IsStory};
    ghost use Rattle.rh_words.specs.Retelling.{retelling};
    ghost use Rattle.rh_words.specs.Stories.{goes_on, comes_to_end, means};

    ghost deeds = { retelling (story true) };

    ghost says = { IsStory true };

    ghost done = { λ s. given s.world };

    fn start(alloc: Global) -> Result<Retelling<HexStory>, AllocError> {
        Retelling::begin(alloc)
    }

    fn write_line<W: Sink>(
        &mut self,
        alloc: Global,
        line: &[u8],
        place: Place,
        gathered: &mut String,
        output: &mut W,
    ) -> Result<Place, Unfinished> {
        self.do_line::<W>(alloc, line, place, gathered, output)
    }

    fn finish(&mut self, alloc: Global, out: &mut String) -> Result<(), AllocError> {
        self.tell_last(alloc, out)
    }

    ghost goes_on = { goes_on true };

    ghost comes_to_end = { comes_to_end true };

    ghost means = { means true };
}
