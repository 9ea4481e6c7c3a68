//! Audits a capture.

ghost use Rattle.std.specs.Prelude.{◌≡◌, ◌≢◌, ◌≤◌, ◌<◌, ◌^◌, ◌++◌, ℕ, List, IfOk, IfErr, Some, length, string_bytes};
ghost use Rattle.std.specs.Io.KnownBytes.{Appends};
ghost use Rattle.rh_io.specs.Bytes.{Moves};
ghost use Rattle.rh_text.specs.Lines.{IsText, FirstBad};
ghost use Rattle.rh_text.specs.Writing.{Writes};
ghost use Rattle.rh_capture.specs.Reading.{Refuses, captures};
ghost use Rattle.rh_word.specs.Words.{Answers, counts, Counted, IsTaken, IsWhole};
ghost use Rattle.rh_packet_words.specs.Audit.{IsAudited};
ghost use Rattle.rh_packet_words.specs.AuditTexts.{audit_text, fault_text, faults_text, prefixed_text};

use rh_audit::{Audit, AuditFault, Prefixed, auditing};
use rh_capture::{CaptureRefused, read_capture, word_of};
use rh_io::{ReadWholeError, Sink, SinkFailed, Source, read_whole, write_whole};
use rh_text::{Part, write_parts};
use rh_word::{Ended, MOST_INPUT};
use std::alloc::{AllocError, Global};

const SPACE: Part<'static> = Part::Text(" ");

const END: Part<'static> = Part::Text("\n");

/// Appends what is wrong with a leg.
fn write_fault(fault: &AuditFault, out: &mut String) -> Result<(), AllocError>
    ensures { Writes (fault_text fault.now) result (string_bytes out.old) (string_bytes out.new) }
{
    match fault {
        AuditFault::Broken { tag, pipe, place } => {
            let (tag, place) = (Part::Number(*tag), Part::Number(*place));
            let pipe = Part::Text(word_of(*pipe));
            write_parts(
                &[Part::Text("broken "), tag, SPACE, pipe, SPACE, place, END],
                out,
            )
        }
        AuditFault::Unchained { tag } => {
            write_parts(&[Part::Text("unchained "), Part::Number(*tag), END], out)
        }
    }
}

/// Appends what is wrong with legs, one line each.
fn write_faults(faults: &[AuditFault], out: &mut String) -> Result<(), AllocError>
    ensures { Writes (faults_text faults.now) result (string_bytes out.old) (string_bytes out.new) }
{
    for fault in faults {
        write_fault(fault, out)?;
    }
    Ok(())
}

/// Appends what is told of a direction, behind its word.
fn write_prefixed(word: &'static str, told: Prefixed, out: &mut String) -> Result<(), AllocError>
    ensures { Writes (word.now ++ prefixed_text told) result
        (string_bytes out.old) (string_bytes out.new) }
{
    let word = Part::Text(word);
    match told {
        Prefixed::Yes { far, near } => {
            let (far, near) = (Part::Number(u64::from(far)), Part::Number(u64::from(near)));
            write_parts(&[word, Part::Text(" yes "), far, SPACE, near, END], out)
        }
        Prefixed::No { place } => {
            let place = Part::Number(u64::from(place));
            write_parts(&[word, Part::Text(" no "), place, END], out)
        }
    }
}

/// Appends what an audit tells: a line for each fault, and one for each direction.
///
/// Fails where there is no memory; a front of that may stand in `out` then, and nothing else.
pub fn write_audit(told: &Audit, out: &mut String) -> Result<(), AllocError>
    ensures { Writes (audit_text told.now.faults.items told.now.up told.now.down) result
        (string_bytes out.old) (string_bytes out.new) }
{
    write_faults(&told.faults, out)?;
    write_prefixed("up", told.up, out)?;
    write_prefixed("down", told.down, out)
}

/// The text of the audit of a capture.
fn audited(alloc: Global, text: &[u8]) -> Result<String, CaptureRefused>
    requires { length text.now < 2 ^ 36 }
    ensures says { IfOk result (λ told. IsAudited text.now (string_bytes told)) }
    ensures refused { IfErr result (Refuses text.now) }
{
    let seen = read_capture(alloc, text)?;
    let told = auditing::audit(alloc, &seen)?;
    let mut out = String::new(alloc);
    write_audit(&told, &mut out)?;
    Ok(out)
}

/// The word `audit`: reads a capture to its end and writes what its audit tells. Nothing is written
/// before every line was read.
pub fn answer_audit<R: Source, W: Sink>(alloc: Global, input: &mut R, output: &mut W) -> Ended
    ensures answers { (came : List ℕ) × (written : List ℕ)
        × Moves (R.left input.old) (R.left input.new) (R.taken input.old) (R.taken input.new) came
        × Appends (W.written output.old) (W.written output.new) written
        × Answers (FirstBad captures) IsAudited result (R.left input.new) came written }
    ensures counted { let counted = counts R.faults R.ends W.faults in
        Counted result (counted input.old output.old) (counted input.new output.new) }
    ensures whole { IsWhole (R.ends input.old) (R.ends input.new)
        (W.written output.old) (W.written output.new) }
    ensures taken { (text : List ℕ) → R.left input.old ≡ Some text → IsText captures text
        → length text ≤ MOST_INPUT → IsTaken result }
    ensures unfailing { R.unfailing input.old → result ≢ Ended.ReadFault }
    ensures takes { (text : List ℕ) → R.left input.old ≡ Some text
        → ((whole : List ℕ) → IsAudited text whole → length whole ≤ W.takes output.old)
        → result ≢ Ended.WriteFault }
{
    let text = match read_whole(alloc, input, MOST_INPUT) {
        Ok(text) => text,
        Err(ReadWholeError::ReadFault) => return Ended::ReadFault,
        Err(ReadWholeError::TooLong) => return Ended::TooLong,
        Err(ReadWholeError::NoMemory) => return Ended::NoMemory,
    };
    let told = match audited(alloc, &text) {
        Ok(told) => told,
        Err(CaptureRefused::BadLine(line)) => return Ended::BadInput(line),
        Err(CaptureRefused::NoMemory) => return Ended::NoMemory,
    };
    match write_whole(output, told.as_bytes()) {
        Ok(()) => Ended::Done,
        Err(SinkFailed) => Ended::WriteFault,
    }
}
