//! Shows packets.

use rh_io::Sink;
use rh_show::{LineReader, Packets, show_packet};
use rh_word::{PIECE, Unfinished, Word, pass_on};
use std::alloc::{AllocError, Global};
use std::marker::Model;

/// The word `show`: reads lines of hex, one packet each, and writes one line for each.
#[derive(Drop)]
pub struct Show {
    reader: LineReader,
}

impl Model for Show {
    ghost Value = { Unit {0} };

    ghost view = { λ _. tt };
}

impl Word<Packets> for Show {
    ghost use Rattle.rh_packet_words.specs.Show.{IsShown, showing};
    ghost use Rattle.rh_packet_words.specs.Shows.{goes_on, comes_to_end, means};

    ghost deeds = { showing };

    ghost says = { IsShown };

    ghost done = { λ _. 0 };

    fn start(alloc: Global) -> Result<Show, AllocError> {
        Ok(Show {
            reader: LineReader::new(alloc)?,
        })
    }

    fn write_line<W: Sink>(
        &mut self,
        _: Global,
        line: &[u8],
        _: (),
        gathered: &mut String,
        output: &mut W,
    ) -> Result<(), Unfinished> {
        let Some(bytes) = self.reader.read(line) else {
            unreachable!()
        };
        show_packet(bytes, gathered)?;
        pass_on(gathered, PIECE, output)
    }

    fn finish(&mut self, _: Global, _: &mut String) -> Result<(), AllocError> {
        Ok(())
    }

    ghost goes_on = { goes_on };

    ghost comes_to_end = { comes_to_end };

    ghost means = { means };
}
