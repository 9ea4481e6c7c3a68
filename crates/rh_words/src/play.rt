//! Plays a script to one node at a time.

use rh_io::Sink;
use rh_play::Player;
use rh_script::{Script, Step, StepRefused, read_step};
use rh_told::write_told;
use rh_word::{PIECE, Unfinished, Word, pass_on};
use std::alloc::{AllocError, Global};
use std::marker::Model;

/// The word `play`: reads a script of one role alone and writes what each line is answered.
#[derive(Drop)]
pub struct Play {
    player: Player,
}

impl Model for Play {
    ghost use Rattle.rh_play.specs.Players.{Player};

    ghost Value = { Player };

    ghost view = { λ a. a.player };
}

impl Play {
    ghost use Rattle.std.specs.Prelude.{OnOk, string_bytes};
    ghost use Rattle.rh_words.specs.Play.{Adds, answered};

    /// Does a line, and gathers what it is answered.
    fn step(&mut self, alloc: Global, step: &Step, gathered: &mut String) -> Result<(), AllocError>
        ensures { OnOk result (Adds (answered self.old step.now) self.new
            (string_bytes gathered.old) (string_bytes gathered.new)) }
    {
        let told = self.player.step(alloc, step)?;
        write_told(&told, gathered)
    }
}

impl Word<Script> for Play {
    ghost use Rattle.rh_words.specs.Play.{IsPlayed, playing};
    ghost use Rattle.rh_words.specs.Plays.{goes_on, comes_to_end, means};

    ghost deeds = { playing };

    ghost says = { IsPlayed };

    ghost done = { λ _. 0 };

    fn start(_: Global) -> Result<Play, AllocError> {
        let player = Player::new();
        Ok(Play { player })
    }

    fn write_line<W: Sink>(
        &mut self,
        alloc: Global,
        line: &[u8],
        _: (),
        gathered: &mut String,
        output: &mut W,
    ) -> Result<(), Unfinished> {
        let step = match read_step(alloc, line) {
            Ok(step) => step,
            Err(StepRefused::Grammar) => unreachable!(),
            Err(StepRefused::NoMemory) => return Err(Unfinished::NoMemory),
        };
        self.step(alloc, &step, gathered)?;
        pass_on(gathered, PIECE, output)
    }

    fn finish(&mut self, _: Global, _: &mut String) -> Result<(), AllocError> {
        Ok(())
    }

    ghost goes_on = { goes_on };

    ghost comes_to_end = { comes_to_end };

    ghost means = { means };
}
