//! The words that read a text to its end and write what it says.

ghost use Rattle.std.specs.Prelude.{◌≡◌, ◌≢◌, ◌+◌, ◌<◌, ◌≤◌, ◌++◌, ℕ, List, IfOk, OnOk, OnErr, Err, Some, length, string_bytes};
ghost use Rattle.std.specs.Io.KnownBytes.{Appends};
ghost use Rattle.rh_io.specs.Bytes.{Moves};
ghost use Rattle.rh_io.specs.Counts.{Rose};
ghost use Rattle.rh_text.specs.Lines.{IsText, FirstBad};
ghost use Rattle.rh_word.specs.Outputs.{out, Gathers, Stops};
ghost use Rattle.rh_word.specs.Words.{Deeds, SaysOf, Answers, counts, Counted, IsBegun, IsTaken, IsWhole};

use crate::output::{PIECE, Unfinished, pass_on};
use rh_io::{ReadWholeError, Sink, Source, read_whole};
use rh_text::{Grammar, first_bad_line, split_line};
use std::alloc::{AllocError, Global};

/// The most bytes of input that are read.
pub const MOST_INPUT: usize = 67_108_864;

/// A word that reads a text of lines by the grammar `G` and writes what it says.
pub trait Word<G: Grammar>: Drop {
    /// As what it starts, what it writes of each line and what it is then, and what at the end.
    ghost deeds: { Deeds Self G.Line };

    /// The output of a text, in the word's own terms.
    ghost says: { List ℕ → List ℕ → Type 0 };

    /// How many lines counted so far.
    ghost done: { Self → ℕ };

    /// The word before its text. Fails where there is no memory.
    fn start(alloc: Global) -> Result<Self, AllocError>
        ensures { IfOk result (λ word. deeds.Starts word × (done word ≡ 0)) };

    /// Does a line that stands at this place, and answers the place behind it. What the line says
    /// is gathered behind what is gathered already, and written where that is a piece, of 65,536
    /// bytes: less than a piece waits behind each line.
    ///
    /// Fails where there is no memory or the output fails. A front of what was gathered and of what
    /// the line says was written then.
    fn write_line<W: Sink>(
        &mut self,
        alloc: Global,
        line: &[u8],
        place: G::Place,
        gathered: &mut String,
        output: &mut W,
    ) -> Result<G::Place, Unfinished>
        requires line { (l : G.Line) × G.rules.Spells place line.now l }
        requires few { done self.old < MOST_INPUT }
        ensures ok { IfOk result (λ next. (l : G.Line) × (told : List ℕ)
            × G.rules.Spells place line.now l × (next ≡ G.rules.next place l)
            × deeds.Does self.old l told self.new
            × Gathers (string_bytes gathered.old ++ told) (string_bytes gathered.new)
            (out W.written W.takes output.old) (out W.written W.takes output.new)) }
        ensures below { length (string_bytes gathered.old) < PIECE
            → OnOk result (length (string_bytes gathered.new) < PIECE) }
        ensures err { OnErr result ((l : G.Line) × (told : List ℕ) × (next : Self)
            × G.rules.Spells place line.now l × deeds.Does self.old l told next
            × Stops (string_bytes gathered.old ++ told)
            (W.written output.old) (W.written output.new)) }
        ensures failed { result ≡ Err Unfinished.WriteFault
            → Rose (W.faults output.old) (W.faults output.new) }
        ensures no_failure { result ≢ Err Unfinished.WriteFault
            → W.faults output.new ≡ W.faults output.old }
        ensures takes { ((l : G.Line) (told : List ℕ) (next : Self)
            → G.rules.Spells place line.now l → deeds.Does self.old l told next
            → length (string_bytes gathered.old ++ told) ≤ W.takes output.old)
            → result ≢ Err Unfinished.WriteFault }
        ensures done { OnOk result (done self.new ≤ done self.old + 1) };

    /// Appends what stands behind the last line. Fails where there is no memory.
    fn finish(&mut self, alloc: Global, out: &mut String) -> Result<(), AllocError>
        ensures { OnOk result ((told : List ℕ) × deeds.Ends self.old told
            × (string_bytes out.new ≡ string_bytes out.old ++ told)) };

    /// A line can be done at any time.
    ghost goes_on: { (word : Self) (place : G.Place) (text : List ℕ) (line : G.Line)
        → G.rules.Spells place text line
        → (told : List ℕ) × (next : Self) × deeds.Does word line told next };

    /// There can be an end at any time.
    ghost comes_to_end: { (word : Self) → (told : List ℕ) × deeds.Ends word told };

    /// What is written line by line is the output of the text.
    ghost means: { (text written : List ℕ)
        → SaysOf G.rules deeds text written → says text written };
}

/// How a word that reads a text ended.
#[derive(Clone, Copy, Debug, PartialEq, Eq)]
pub enum Ended {
    /// The input was read to its end, and the output is whole.
    Done,
    /// The line with this number, from 1, is the first that is outside the grammar.
    BadInput(u64),
    /// The input failed.
    ReadFault,
    /// The output failed.
    WriteFault,
    /// There was no memory, for the input or, once that was read whole, for its output.
    NoMemory,
    /// The input is longer than the program reads.
    TooLong,
}

/// Does each line in turn, and writes what it says in pieces.
fn write_all<G: Grammar, X: Word<G>, W: Sink>(
    alloc: Global,
    mut word: X,
    text: &[u8],
    output: &mut W,
) -> Result<(), Unfinished>
    requires word { X.deeds.Starts word × (X.done word ≡ 0) }
    requires text { IsText G.rules text.now }
    requires short { length text.now ≤ MOST_INPUT }
    ensures ok { OnOk result ((written : List ℕ)
        × Appends (W.written output.old) (W.written output.new) written
        × SaysOf G.rules X.deeds text.now written) }
    ensures err { OnErr result ((written : List ℕ)
        × Appends (W.written output.old) (W.written output.new) written
        × IsBegun (SaysOf G.rules X.deeds) text.now written) }
    ensures failed { result ≡ Err Unfinished.WriteFault
        → Rose (W.faults output.old) (W.faults output.new) }
    ensures no_failure { result ≢ Err Unfinished.WriteFault
        → W.faults output.new ≡ W.faults output.old }
    ensures takes { ((whole : List ℕ) → SaysOf G.rules X.deeds text.now whole
        → length whole ≤ W.takes output.old) → result ≢ Err Unfinished.WriteFault }
{
    let mut gathered = String::new(alloc);
    let mut rest = text;
    let mut place = G::first_place();
    'lines: while !rest.is_empty() {
        let (line, behind) = split_line(rest);
        place = word.write_line::<W>(alloc, line, place, &mut gathered, output)?;
        rest = behind;
    }
    word.finish(alloc, &mut gathered)?;
    pass_on(&mut gathered, 0, output)?;
    Ok(())
}

/// Reads a text to its end and writes what it says. Nothing is written before every line was read.
pub fn answer<G: Grammar, X: Word<G>, R: Source, W: Sink>(
    alloc: Global,
    input: &mut R,
    output: &mut W,
) -> Ended
    ensures answers { (came : List ℕ) × (written : List ℕ)
        × Moves (R.left input.old) (R.left input.new) (R.taken input.old) (R.taken input.new) came
        × Appends (W.written output.old) (W.written output.new) written
        × Answers (FirstBad G.rules) X.says result (R.left input.new) came written }
    ensures counted { let counted = counts R.faults R.ends W.faults in
        Counted result (counted input.old output.old) (counted input.new output.new) }
    ensures whole { IsWhole (R.ends input.old) (R.ends input.new)
        (W.written output.old) (W.written output.new) }
    ensures taken { (text : List ℕ) → R.left input.old ≡ Some text → IsText G.rules text
        → length text ≤ MOST_INPUT → IsTaken result }
    ensures unfailing { R.unfailing input.old → result ≢ Ended.ReadFault }
    ensures takes { (text : List ℕ) → R.left input.old ≡ Some text
        → ((whole : List ℕ) → X.says text whole → length whole ≤ W.takes output.old)
        → result ≢ Ended.WriteFault }
{
    let text = match read_whole(alloc, input, MOST_INPUT) {
        Ok(text) => text,
        Err(ReadWholeError::ReadFault) => return Ended::ReadFault,
        Err(ReadWholeError::TooLong) => return Ended::TooLong,
        Err(ReadWholeError::NoMemory) => return Ended::NoMemory,
    };
    if let Some(line) = first_bad_line::<G>(&text) {
        return Ended::BadInput(line);
    }
    let Ok(word) = X::start(alloc) else {
        return Ended::NoMemory;
    };
    match write_all::<G, X, W>(alloc, word, &text, output) {
        Ok(()) => Ended::Done,
        Err(Unfinished::WriteFault) => Ended::WriteFault,
        Err(Unfinished::NoMemory) => Ended::NoMemory,
    }
}
