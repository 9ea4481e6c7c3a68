//! Names packets.

use rh_io::Sink;
use rh_name::{Namer, Names};
use rh_word::{PIECE, Unfinished, Word, pass_on};
use std::alloc::{AllocError, Global};
use std::marker::Model;

/// The word `name`: reads lines of hex, one packet each, and writes what each is called.
#[derive(Drop)]
pub struct Name {
    namer: Namer,
}

impl Model for Name {
    ghost Value = { Unit {0} };

    ghost view = { λ _. tt };
}

impl Word<Names> for Name {
    ghost use Rattle.rh_packet_words.specs.Name.{IsNamed, naming};
    ghost use Rattle.rh_packet_words.specs.Names.{goes_on, comes_to_end, means};

    ghost deeds = { naming };

    ghost says = { IsNamed };

    ghost done = { λ _. 0 };

    fn start(alloc: Global) -> Result<Name, AllocError> {
        Ok(Name {
            namer: Namer::new(alloc)?,
        })
    }

    fn write_line<W: Sink>(
        &mut self,
        _: Global,
        line: &[u8],
        _: (),
        gathered: &mut String,
        output: &mut W,
    ) -> Result<(), Unfinished> {
        self.namer.name_line(line, gathered)?;
        pass_on(gathered, PIECE, output)
    }

    fn finish(&mut self, _: Global, _: &mut String) -> Result<(), AllocError> {
        Ok(())
    }

    ghost goes_on = { goes_on };

    ghost comes_to_end = { comes_to_end };

    ghost means = { means };
}
