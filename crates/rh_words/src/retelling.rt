//! Runs a recording, and has it told while it runs.

ghost use Rattle.std.specs.Prelude.{◌≡◌, ◌≢◌, ◌≤◌, ◌<◌, ◌+◌, ◌==◌, ◌∷◌, ◌++◌, Err, true, IfOk, OnOk, OnErr, length, string_bytes};
ghost use Rattle.rh_io.specs.Counts.{Rose};
ghost use Rattle.rh_record.specs.declared.line.Line.TheVariants.{Settle};
ghost use Rattle.rh_record.specs.declared.answer.Answer.{Answer};
ghost use Rattle.rh_teller.specs.Tales.{told, behind};
ghost use Rattle.rh_world.specs.declared.any_world.AnyWorld.{AnyWorld};
ghost use Rattle.rh_world.specs.Any as seen;
ghost use Rattle.rh_word.specs.Outputs.{out, Gathers, Stops};

use rh_io::Sink;
use rh_record::{Answer, Line, LineRefused, Place, Report, read_line};
use rh_teller::{Teller, tell_all};
use rh_word::{MOST_INPUT, PIECE, Unfinished, pass_on};
use rh_world::AnyWorld;
use std::alloc::{AllocError, Global};
use std::marker::Model;

/// A recording that runs, and who tells of it.
#[derive(Drop)]
pub struct Retelling<T: Teller> {
    world: AnyWorld,
    report: Report,
    teller: T,
}

impl<T: Teller> Model for Retelling<T> {
    ghost use Rattle.rh_words.specs.Retelling.{Retold};

    ghost Value = { Retold T };

    ghost view = { λ a. record { world = a.world; teller = a.teller } };
}

/// Gathers what is told of a line before it is answered, and writes what is gathered where that is
/// a piece.
fn gather_line<T: Teller, W: Sink>(
    teller: &mut T,
    line: &Line,
    gathered: &mut String,
    output: &mut W,
) -> Result<(), Unfinished>
    ensures teller { OnOk result (teller.new ≡ T.tale.heard teller.old line.now) }
    ensures ok { OnOk result (Gathers
        (string_bytes gathered.old ++ T.tale.line teller.old line.now)
        (string_bytes gathered.new)
        (out W.written W.takes output.old) (out W.written W.takes output.new)) }
    ensures below { OnOk result (length (string_bytes gathered.new) < PIECE) }
    ensures err { OnErr result (Stops
        (string_bytes gathered.old ++ T.tale.line teller.old line.now)
        (W.written output.old) (W.written output.new)) }
    ensures failed { result ≡ Err Unfinished.WriteFault
        → Rose (W.faults output.old) (W.faults output.new) }
    ensures no_failure { result ≢ Err Unfinished.WriteFault
        → W.faults output.new ≡ W.faults output.old }
    ensures takes { length (string_bytes gathered.old ++ T.tale.line teller.old line.now)
        ≤ W.takes output.old → result ≢ Err Unfinished.WriteFault }
{
    teller.tell_line(line, gathered)?;
    pass_on::<W>(gathered, PIECE, output)
}

/// Gathers what is told of a report, and writes what is gathered where that is a piece.
fn gather<T: Teller, W: Sink>(
    alloc: Global,
    report: &Report,
    teller: &mut T,
    gathered: &mut String,
    output: &mut W,
) -> Result<(), Unfinished>
    ensures teller { OnOk result (teller.new ≡ behind T.tale teller.old report.now) }
    ensures ok { OnOk result (Gathers
        (string_bytes gathered.old ++ told T.tale teller.old report.now)
        (string_bytes gathered.new)
        (out W.written W.takes output.old) (out W.written W.takes output.new)) }
    ensures below { OnOk result (length (string_bytes gathered.new) < PIECE) }
    ensures err { OnErr result (Stops
        (string_bytes gathered.old ++ told T.tale teller.old report.now)
        (W.written output.old) (W.written output.new)) }
    ensures failed { result ≡ Err Unfinished.WriteFault
        → Rose (W.faults output.old) (W.faults output.new) }
    ensures no_failure { result ≢ Err Unfinished.WriteFault
        → W.faults output.new ≡ W.faults output.old }
    ensures takes { length (string_bytes gathered.old ++ told T.tale teller.old report.now)
        ≤ W.takes output.old → result ≢ Err Unfinished.WriteFault }
{
    tell_all::<T>(alloc, teller, report.answers(), gathered)?;
    pass_on(gathered, PIECE, output)
}

/// Settles in so many rounds at most, and passes on what each reports before the next is done: of
/// no two rounds answers are held at once. A direct world doesn't settle.
fn settle<T: Teller, W: Sink>(
    alloc: Global,
    world: &mut AnyWorld,
    report: &mut Report,
    rounds: u32,
    teller: &mut T,
    gathered: &mut String,
    output: &mut W,
) -> Result<(), Unfinished>
    ensures world { OnOk result (world.new ≡ (seen.step world.old (Settle rounds)).0) }
    ensures teller { OnOk result
        (teller.new ≡ behind T.tale teller.old (seen.step world.old (Settle rounds)).1) }
    ensures given { OnOk result (seen.given world.new ≤ seen.given world.old + 1) }
    ensures ok { OnOk result (Gathers
        (string_bytes gathered.old
        ++ told T.tale teller.old (seen.step world.old (Settle rounds)).1)
        (string_bytes gathered.new)
        (out W.written W.takes output.old) (out W.written W.takes output.new)) }
    ensures below { length (string_bytes gathered.old) < PIECE
        → OnOk result (length (string_bytes gathered.new) < PIECE) }
    ensures held { OnOk result (seen.settles world.old ≡ true → (last : Answer) × (now : AnyWorld)
        × (report.new ≡ last ∷ (seen.end_line now).1)) }
    ensures err { OnErr result (Stops
        (string_bytes gathered.old
        ++ told T.tale teller.old (seen.step world.old (Settle rounds)).1)
        (W.written output.old) (W.written output.new)) }
    ensures failed { result ≡ Err Unfinished.WriteFault
        → Rose (W.faults output.old) (W.faults output.new) }
    ensures no_failure { result ≢ Err Unfinished.WriteFault
        → W.faults output.new ≡ W.faults output.old }
    ensures takes { length
        (string_bytes gathered.old
        ++ told T.tale teller.old (seen.step world.old (Settle rounds)).1)
        ≤ W.takes output.old → result ≢ Err Unfinished.WriteFault }
{
    if !world.begin(alloc)? {
        return Ok(());
    }
    'rounds: for count in 0..rounds {
        if round::<T, W>(alloc, world, report, teller, gathered, output)? {
            return end_line::<T, W>(
                alloc,
                world,
                report,
                Answer::Quiet(count),
                teller,
                gathered,
                output,
            );
        }
    }
    end_line::<T, W>(
        alloc,
        world,
        report,
        Answer::Spent(rounds),
        teller,
        gathered,
        output,
    )
}

/// Does a round of a settling, passes on what it reports, and answers whether that is nothing. The
/// round's answers alone are held behind it, and less than a piece of text, 65,536 bytes.
fn round<T: Teller, W: Sink>(
    alloc: Global,
    world: &mut AnyWorld,
    report: &mut Report,
    teller: &mut T,
    gathered: &mut String,
    output: &mut W,
) -> Result<bool, Unfinished>
    ensures world { OnOk result (world.new ≡ (seen.round world.old).0) }
    ensures teller { OnOk result (teller.new ≡ behind T.tale teller.old (seen.round world.old).1) }
    ensures quiet { IfOk result (λ quiet. quiet ≡ (length (seen.round world.old).1 == 0)) }
    ensures ok { OnOk result (Gathers
        (string_bytes gathered.old ++ told T.tale teller.old (seen.round world.old).1)
        (string_bytes gathered.new)
        (out W.written W.takes output.old) (out W.written W.takes output.new)) }
    ensures below { OnOk result (length (string_bytes gathered.new) < PIECE) }
    ensures held { OnOk result (report.new ≡ (seen.round world.old).1) }
    ensures err { OnErr result (Stops
        (string_bytes gathered.old ++ told T.tale teller.old (seen.round world.old).1)
        (W.written output.old) (W.written output.new)) }
    ensures failed { result ≡ Err Unfinished.WriteFault
        → Rose (W.faults output.old) (W.faults output.new) }
    ensures no_failure { result ≢ Err Unfinished.WriteFault
        → W.faults output.new ≡ W.faults output.old }
    ensures takes { length
        (string_bytes gathered.old ++ told T.tale teller.old (seen.round world.old).1)
        ≤ W.takes output.old → result ≢ Err Unfinished.WriteFault }
{
    report.clear();
    world.round(alloc, report)?;
    gather::<T, W>(alloc, report, teller, gathered, output)?;
    Ok(report.answers().is_empty())
}

/// Passes on a line's last answer of its own and what stands behind it.
fn end_line<T: Teller, W: Sink>(
    alloc: Global,
    world: &mut AnyWorld,
    report: &mut Report,
    answer: Answer,
    teller: &mut T,
    gathered: &mut String,
    output: &mut W,
) -> Result<(), Unfinished>
    ensures world { OnOk result (world.new ≡ (seen.end_line world.old).0) }
    ensures teller { OnOk result
        (teller.new ≡ behind T.tale teller.old (answer ∷ (seen.end_line world.old).1)) }
    ensures ok { OnOk result (Gathers
        (string_bytes gathered.old
        ++ told T.tale teller.old (answer ∷ (seen.end_line world.old).1))
        (string_bytes gathered.new)
        (out W.written W.takes output.old) (out W.written W.takes output.new)) }
    ensures below { OnOk result (length (string_bytes gathered.new) < PIECE) }
    ensures held { OnOk result (report.new ≡ answer ∷ (seen.end_line world.old).1) }
    ensures err { OnErr result (Stops
        (string_bytes gathered.old
        ++ told T.tale teller.old (answer ∷ (seen.end_line world.old).1))
        (W.written output.old) (W.written output.new)) }
    ensures failed { result ≡ Err Unfinished.WriteFault
        → Rose (W.faults output.old) (W.faults output.new) }
    ensures no_failure { result ≢ Err Unfinished.WriteFault
        → W.faults output.new ≡ W.faults output.old }
    ensures takes { length (string_bytes gathered.old
        ++ told T.tale teller.old (answer ∷ (seen.end_line world.old).1))
        ≤ W.takes output.old → result ≢ Err Unfinished.WriteFault }
{
    report.clear();
    report.push(answer)?;
    world.end_line(report)?;
    gather::<T, W>(alloc, report, teller, gathered, output)
}

/// Does a line, and passes on what is told of its answers.
fn answer_line<T: Teller, W: Sink>(
    alloc: Global,
    world: &mut AnyWorld,
    report: &mut Report,
    line: &Line,
    teller: &mut T,
    gathered: &mut String,
    output: &mut W,
) -> Result<(), Unfinished>
    requires { seen.given world.old < MOST_INPUT }
    ensures world { OnOk result (world.new ≡ (seen.step world.old line.now).0) }
    ensures teller { OnOk result
        (teller.new ≡ behind T.tale teller.old (seen.step world.old line.now).1) }
    ensures given { OnOk result (seen.given world.new ≤ seen.given world.old + 1) }
    ensures ok { OnOk result (Gathers
        (string_bytes gathered.old ++ told T.tale teller.old (seen.step world.old line.now).1)
        (string_bytes gathered.new)
        (out W.written W.takes output.old) (out W.written W.takes output.new)) }
    ensures below { length (string_bytes gathered.old) < PIECE
        → OnOk result (length (string_bytes gathered.new) < PIECE) }
    ensures err { OnErr result (Stops
        (string_bytes gathered.old ++ told T.tale teller.old (seen.step world.old line.now).1)
        (W.written output.old) (W.written output.new)) }
    ensures failed { result ≡ Err Unfinished.WriteFault
        → Rose (W.faults output.old) (W.faults output.new) }
    ensures no_failure { result ≢ Err Unfinished.WriteFault
        → W.faults output.new ≡ W.faults output.old }
    ensures takes { length
        (string_bytes gathered.old ++ told T.tale teller.old (seen.step world.old line.now).1)
        ≤ W.takes output.old → result ≢ Err Unfinished.WriteFault }
{
    if let Line::Settle { rounds } = line {
        return settle::<T, W>(alloc, world, report, *rounds, teller, gathered, output);
    }
    report.clear();
    world.step(alloc, line, report)?;
    gather::<T, W>(alloc, report, teller, gathered, output)
}

/// Does a line, and passes on what is told of it and of its answers.
fn tell_line<T: Teller, W: Sink>(
    alloc: Global,
    world: &mut AnyWorld,
    report: &mut Report,
    line: &Line,
    teller: &mut T,
    gathered: &mut String,
    output: &mut W,
) -> Result<(), Unfinished>
    requires { seen.given world.old < MOST_INPUT }
    ensures world { OnOk result (world.new ≡ (seen.step world.old line.now).0) }
    ensures teller { OnOk result
        (teller.new ≡ behind T.tale (T.tale.heard teller.old line.now)
        (seen.step world.old line.now).1) }
    ensures given { OnOk result (seen.given world.new ≤ seen.given world.old + 1) }
    ensures ok { OnOk result (Gathers
        (string_bytes gathered.old ++ (T.tale.line teller.old line.now
        ++ told T.tale (T.tale.heard teller.old line.now) (seen.step world.old line.now).1))
        (string_bytes gathered.new)
        (out W.written W.takes output.old) (out W.written W.takes output.new)) }
    ensures below { OnOk result (length (string_bytes gathered.new) < PIECE) }
    ensures err { OnErr result (Stops
        (string_bytes gathered.old ++ (T.tale.line teller.old line.now
        ++ told T.tale (T.tale.heard teller.old line.now) (seen.step world.old line.now).1))
        (W.written output.old) (W.written output.new)) }
    ensures failed { result ≡ Err Unfinished.WriteFault
        → Rose (W.faults output.old) (W.faults output.new) }
    ensures no_failure { result ≢ Err Unfinished.WriteFault
        → W.faults output.new ≡ W.faults output.old }
    ensures takes { length
        (string_bytes gathered.old ++ (T.tale.line teller.old line.now
        ++ told T.tale (T.tale.heard teller.old line.now) (seen.step world.old line.now).1))
        ≤ W.takes output.old → result ≢ Err Unfinished.WriteFault }
{
    gather_line::<T, W>(teller, line, gathered, output)?;
    answer_line::<T, W>(alloc, world, report, line, teller, gathered, output)
}

impl<T: Teller> Retelling<T> {
    ghost use Rattle.std.specs.Prelude.{ℕ, List};
    ghost use Rattle.rh_record.specs.Places.{Stands, next};
    ghost use Rattle.rh_record.specs.declared.line.Line.{Line};
    ghost use Rattle.rh_words.specs.Retelling.{line_behind, line_told, retelling, Retold};

    /// A recording of which nothing came yet. Fails where there is no memory.
    pub fn begin(alloc: Global) -> Result<Retelling<T>, AllocError>
        ensures { IfOk result (λ first. (retelling T.tale).Starts first) }
    {
        Ok(Retelling {
            world: AnyWorld::Before,
            report: Report::new(alloc),
            teller: T::start(alloc)?,
        })
    }

    /// Does a line, and passes on what is told of it and of its answers.
    fn step<W: Sink>(
        &mut self,
        alloc: Global,
        line: &Line,
        gathered: &mut String,
        output: &mut W,
    ) -> Result<(), Unfinished>
        requires { seen.given self.old.world < MOST_INPUT }
        ensures next { OnOk result (self.new ≡ line_behind T.tale self.old line.now) }
        ensures given { OnOk result (seen.given self.new.world ≤ seen.given self.old.world + 1) }
        ensures ok { OnOk result (Gathers
            (string_bytes gathered.old ++ line_told T.tale self.old line.now)
            (string_bytes gathered.new)
            (out W.written W.takes output.old) (out W.written W.takes output.new)) }
        ensures below { OnOk result (length (string_bytes gathered.new) < PIECE) }
        ensures err { OnErr result (Stops
            (string_bytes gathered.old ++ line_told T.tale self.old line.now)
            (W.written output.old) (W.written output.new)) }
        ensures failed { result ≡ Err Unfinished.WriteFault
            → Rose (W.faults output.old) (W.faults output.new) }
        ensures no_failure { result ≢ Err Unfinished.WriteFault
            → W.faults output.new ≡ W.faults output.old }
        ensures takes { length (string_bytes gathered.old ++ line_told T.tale self.old line.now)
            ≤ W.takes output.old → result ≢ Err Unfinished.WriteFault }
    {
        let (world, report, teller) = (&mut self.world, &mut self.report, &mut self.teller);
        tell_line::<T, W>(alloc, world, report, line, teller, gathered, output)
    }

    /// Reads the line that stands at this place and does it, and answers the place behind it.
    pub fn do_line<W: Sink>(
        &mut self,
        alloc: Global,
        line: &[u8],
        place: Place,
        gathered: &mut String,
        output: &mut W,
    ) -> Result<Place, Unfinished>
        requires line { (l : Line) × Stands place line.now l }
        requires few { seen.given self.old.world < MOST_INPUT }
        ensures ok { IfOk result (λ later. (l : Line) × (said : List ℕ) × Stands place line.now l
            × (later ≡ next place l) × (retelling T.tale).Does self.old l said self.new
            × Gathers (string_bytes gathered.old ++ said) (string_bytes gathered.new)
            (out W.written W.takes output.old) (out W.written W.takes output.new)) }
        ensures below { OnOk result (length (string_bytes gathered.new) < PIECE) }
        ensures err { OnErr result ((l : Line) × (said : List ℕ) × (after : Retold T)
            × Stands place line.now l × (retelling T.tale).Does self.old l said after
            × Stops (string_bytes gathered.old ++ said)
            (W.written output.old) (W.written output.new)) }
        ensures failed { result ≡ Err Unfinished.WriteFault
            → Rose (W.faults output.old) (W.faults output.new) }
        ensures no_failure { result ≢ Err Unfinished.WriteFault
            → W.faults output.new ≡ W.faults output.old }
        ensures takes { ((l : Line) (said : List ℕ) (after : Retold T)
            → Stands place line.now l → (retelling T.tale).Does self.old l said after
            → length (string_bytes gathered.old ++ said) ≤ W.takes output.old)
            → result ≢ Err Unfinished.WriteFault }
        ensures given { OnOk result (seen.given self.new.world ≤ seen.given self.old.world + 1) }
    {
        let line = match read_line(alloc, line, place.kind()) {
            Ok(line) => line,
            Err(LineRefused::Grammar) => unreachable!(),
            Err(LineRefused::NoMemory) => return Err(Unfinished::NoMemory),
        };
        self.step::<W>(alloc, &line, gathered, output)?;
        Ok(place.next(&line))
    }

    /// Appends what is told of the last answers. Fails where there is no memory.
    pub fn tell_last(&mut self, alloc: Global, out: &mut String) -> Result<(), AllocError>
        ensures { OnOk result (string_bytes out.new
            ≡ string_bytes out.old ++ told T.tale self.old.teller (seen.last self.old.world)) }
    {
        self.report.clear();
        self.world.last(alloc, &mut self.report)?;
        tell_all::<T>(alloc, &mut self.teller, self.report.answers(), out)
    }
}
