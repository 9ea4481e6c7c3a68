//! Reads the lines of a text of packets that are to be named: hex, and in front of it the pipe,
//! where one is told.

ghost use Rattle.std.specs.Prelude.{◌≡◌, ◌≢◌, ◌∷◌, ◌++◌, ◌↔◌, ℕ, List, IsTrue, MatchOption};
ghost use Rattle.rh_sig.specs.declared.name.Pipe.{Pipe};
ghost use Rattle.rh_name.specs.Words.{pipe_word};
ghost use Rattle.rh_name.specs.Lines.{IsAsked, IsSplit};
ghost use Rattle.rh_name.specs.declared.reader.TheConstants.{BLANK};
ghost use Rattle.rh_name.specs.declared.reader.Asked.{Asked};

use crate::telling::name_packet;
use rh_show::LineReader;
use rh_show::reader::MOST_BYTES;
use rh_sig::Pipe;
use rh_text::{Bytes, Grammar, is_hex};
use std::alloc::{AllocError, Global};

/// The byte between a pipe and what stands there.
pub const BLANK: u8 = b' ';

/// A line: the bytes of a packet, and the pipe on which they stand, where it is told.
#[derive(Debug, Drop)]
pub struct Asked {
    pub pipe: Option<Pipe>,
    pub bytes: Bytes,
}

/// The pipe in front of a line, and what stands behind its blank; `None` where none is told.
fn pipe_in_front(line: &[u8]) -> Option<(Pipe, &[u8])>
    ensures { MatchOption result ((pipe : Pipe) (hex : List ℕ)
        → line.now ≢ pipe_word pipe ++ BLANK ∷ hex)
        (λ found. line.now ≡ pipe_word found.0 ++ BLANK ∷ found.1.now) }
{
    match line {
        [b'c', b'i', b'u', BLANK, hex @ ..] => Some((Pipe::CiU, hex)),
        [b'i', b's', b'u', BLANK, hex @ ..] => Some((Pipe::IsU, hex)),
        [b'i', b's', b'd', BLANK, hex @ ..] => Some((Pipe::IsD, hex)),
        [b'c', b'o', b'u', BLANK, hex @ ..] => Some((Pipe::CoU, hex)),
        [b'c', b'o', b'd', BLANK, hex @ ..] => Some((Pipe::CoD, hex)),
        [b'o', b's', b'u', BLANK, hex @ ..] => Some((Pipe::OsU, hex)),
        [b'o', b's', b'd', BLANK, hex @ ..] => Some((Pipe::OsD, hex)),
        _ => None,
    }
}

/// The pipe that a line tells, where it tells one, and what is to spell the bytes of a packet.
///
/// The line is without the LF that ends it. A `LineReader` reads the bytes.
pub fn split_pipe(line: &[u8]) -> (Option<Pipe>, &[u8])
    ensures { IsSplit line.now result.0 result.1.now }
{
    match pipe_in_front(line) {
        Some((pipe, hex)) => (Some(pipe), hex),
        None => (None, line),
    }
}

/// Whether a text is a line. Nothing is decoded, and no memory is taken.
fn is_asked(text: &[u8]) -> bool
    ensures { IsTrue result ↔ ((line : Asked) × IsAsked line.pipe line.bytes text.now) }
{
    let (_, hex) = split_pipe(text);
    is_hex(hex, MOST_BYTES)
}

/// The grammar of texts of packets that are to be named.
#[derive(Clone, Copy, Debug)]
pub struct Names;

impl Grammar for Names {
    ghost use Rattle.rh_name.specs.Lines.{asked};
    ghost use Rattle.rh_name.specs.Readings.{one_asked_at, no_empty};

    type Place = ();

    type Line = Asked;

    ghost rules = { asked };

    fn first_place() {}

    fn may_end(_: ()) -> bool {
        true
    }

    fn judge_line(text: &[u8], _: ()) -> Option<()> {
        if is_asked(text) { Some(()) } else { None }
    }

    ghost one = { one_asked_at };

    ghost some = { no_empty };
}

/// Names the packets of lines, one after the other, with one room for the bytes of a line.
#[derive(Debug, Drop)]
pub struct Namer {
    reader: LineReader,
}

impl Namer {
    ghost use Rattle.std.specs.Prelude.{[], string_bytes};
    ghost use Rattle.rh_text.specs.Writing.{Writes};
    ghost use Rattle.rh_text.specs.declared.lines.TheConstants.{LINE_FEED};
    ghost use Rattle.rh_name.specs.Telling.{told};

    /// With room for the bytes of the longest line: 65,535 bytes.
    ///
    /// Fails where there is no memory for the room.
    pub fn new(alloc: Global) -> Result<Namer, AllocError> {
        let reader = LineReader::new(alloc)?;
        Ok(Namer { reader })
    }

    /// Appends the one line that tells what the packet of a line is called, with LF at its end.
    ///
    /// The line is without the LF that ends it. Fails where there is no memory for the text; a
    /// front of it may stand in `out` then, and nothing else.
    pub fn name_line(&mut self, line: &[u8], out: &mut String) -> Result<(), AllocError>
        requires { (asked : Asked) × IsAsked asked.pipe asked.bytes line.now }
        ensures { (asked : Asked) × IsAsked asked.pipe asked.bytes line.now
            × Writes (told asked.pipe asked.bytes ++ LINE_FEED ∷ []) result
            (string_bytes out.old) (string_bytes out.new) }
    {
        let (pipe, hex) = split_pipe(line);
        let Some(bytes) = self.reader.read(hex) else {
            unreachable!()
        };
        name_packet(pipe, bytes, out)
    }
}
