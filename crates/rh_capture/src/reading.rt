//! Reads a capture.

ghost use Rattle.std.specs.Prelude.{◌≡◌, ◌<◌, ◌^◌, ◌++◌, ◌∷◌, [], ◌↔◌, IsTrue, IfOk, IfErr, ℕ, List, codes, length};
ghost use Rattle.rh_audit.specs.Captures.{IsCapture};
ghost use Rattle.rh_audit.specs.declared.seen.Seen.{Seen};
ghost use Rattle.rh_capture.specs.Kinds.{HasKinds};
ghost use Rattle.rh_capture.specs.Reading.{Follows, IsCaptureOf, Refuses};
ghost use Rattle.rh_capture.specs.declared.refused.CaptureRefused.TheVariants.{BadLine};

use crate::capturing::Captured;
use crate::kinds::Kinds;
use crate::refused::CaptureRefused;
use rh_audit::{Seen, SeenRefused, read_seen};
use rh_text::split_line;
use std::alloc::Global;

/// Whether the line is the first of a capture.
fn is_first(line: &[u8]) -> bool
    ensures { IsTrue result ↔ (line.now ≡ codes "cap 1") }
{
    line == b"cap 1".as_slice()
}

/// The line with this number, behind lines of these kinds.
fn read_line(
    alloc: Global,
    text: &[u8],
    number: u64,
    kinds: &mut Kinds,
) -> Result<Seen, CaptureRefused>
    ensures line { IfOk result (λ line. (seen : List Seen) → HasKinds kinds.old seen
        → Follows seen text.now line × HasKinds kinds.new (seen ++ line ∷ [])) }
    ensures refused { IfErr result (λ refused. (n : ℕ) → refused ≡ BadLine n → (n ≡ number)
        × ((seen : List Seen) → HasKinds kinds.old seen
        → (line : Seen) → ¬ Follows seen text.now line)) }
{
    let line = match read_seen(alloc, text) {
        Ok(line) => line,
        Err(SeenRefused::Grammar) => return Err(CaptureRefused::BadLine(number)),
        Err(SeenRefused::NoMemory) => return Err(CaptureRefused::NoMemory),
    };
    if kinds.note(line.tag, line.pipe)? {
        Ok(line)
    } else {
        Err(CaptureRefused::BadLine(number))
    }
}

/// Reads a capture: its first line, `cap 1`, and then the lines of bytes that were seen. The lines
/// of one tag have pipes of one kind of leg.
///
/// Fails where the text is no capture, with the number of the first line that is none of its place,
/// or is missing, and where there is no memory.
pub fn read_capture(alloc: Global, text: &[u8]) -> Result<Captured, CaptureRefused>
    requires { length text.now < 2 ^ 36 }
    ensures lines { IfOk result (λ seen. IsCaptureOf text.now seen.items) }
    ensures capture { IfOk result (λ seen. IsCapture seen.items) }
    ensures refused { IfErr result (Refuses text.now) }
{
    let (first, mut rest) = split_line(text);
    if !is_first(first) {
        return Err(CaptureRefused::BadLine(1));
    }
    let mut kinds = Kinds::new(alloc);
    let mut seen = Vec::new(alloc);
    let mut number = 2;
    'lines: while !rest.is_empty() {
        let (line, behind) = split_line(rest);
        let line = read_line(alloc, line, number, &mut kinds)?;
        let Ok(()) = seen.push(line) else {
            return Err(CaptureRefused::NoMemory);
        };
        rest = behind;
        number += 1;
    }
    Ok(seen)
}
