//! A story as one that tells of a recording while it runs.

use crate::story::Story;
use rh_record::{Answer, Line};
use rh_teller::Teller;
use std::alloc::{AllocError, Global};
use std::marker::Model;

impl Teller for Story {
    ghost use Rattle.std.specs.Prelude.{false};
    ghost use Rattle.rh_story.specs.Tale.{story};

    ghost tale = { story false };

    fn start(alloc: Global) -> Result<Story, AllocError> {
        Ok(Story::new(alloc, false))
    }

    fn tell_line(&mut self, line: &Line, out: &mut String) -> Result<(), AllocError> {
        self.tell_of_line(line, out)
    }

    fn tell(&mut self, alloc: Global, answer: &Answer, out: &mut String) -> Result<(), AllocError> {
        self.tell_of_answer(alloc, answer, out)
    }
}

/// A story that tells the bytes of each packet, PDU and head in hex too.
#[derive(Drop)]
pub struct HexStory {
    story: Story,
}

impl Model for HexStory {
    ghost use Rattle.rh_story.specs.Stories.{Telling};

    ghost Value = { Telling };

    ghost view = { λ a. a.story };
}

impl Teller for HexStory {
    ghost use Rattle.std.specs.Prelude.{true};
    ghost use Rattle.rh_story.specs.Tale.{story};

    ghost tale = { story true };

    fn start(alloc: Global) -> Result<HexStory, AllocError> {
        Ok(HexStory {
            story: Story::new(alloc, true),
        })
    }

    fn tell_line(&mut self, line: &Line, out: &mut String) -> Result<(), AllocError> {
        self.story.tell_of_line(line, out)
    }

    fn tell(&mut self, alloc: Global, answer: &Answer, out: &mut String) -> Result<(), AllocError> {
        self.story.tell_of_answer(alloc, answer, out)
    }
}
