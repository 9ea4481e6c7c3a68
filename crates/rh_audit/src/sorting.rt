//! The lines of a capture by their tags.

ghost use Rattle.std.specs.Prelude.{◌≡◌, ◌<◌, ◌≤◌, ℕ, IfOk, drop, length, take};
ghost use Rattle.std.specs.List.{AllByRecursion};
ghost use Rattle.rh_audit.specs.Captures.{of_tag};
ghost use Rattle.rh_audit.specs.Pieces.{all_seen};
ghost use Rattle.rh_audit.specs.Runs.{IsFirstRun};
ghost use Rattle.rh_audit.specs.Tags.{HasOther, IsRising};

use crate::leg::kind_of;
use crate::pieces::Piece;
use crate::seen::Seen;
use rh_line::LegKind;
use std::alloc::{AllocError, Global};

/// The lines where they stand.
fn pieces_of<'a>(alloc: Global, seen: &'a [Seen]) -> Result<Vec<Piece<'a>>, AllocError>
    ensures { IfOk result (λ pieces. all_seen pieces.items ≡ seen.now) }
{
    let mut pieces = Vec::with_capacity(alloc, seen.len())?;
    for line in seen {
        pieces.push(Piece {
            tag: line.tag,
            pipe: line.pipe,
            bytes: line.bytes.as_slice(),
        })?;
    }
    Ok(pieces)
}

/// The lines in the order of their tags; those of one tag stand as they stood.
///
/// Fails where there is no memory.
pub(crate) fn by_tag<'a>(alloc: Global, seen: &'a [Seen]) -> Result<Vec<Piece<'a>>, AllocError>
    ensures rising { IfOk result (λ pieces. IsRising (all_seen pieces.items)) }
    ensures tags { IfOk result (λ pieces. (tag : ℕ)
        → of_tag tag (all_seen pieces.items) ≡ of_tag tag seen.now) }
{
    let mut pieces = pieces_of(alloc, seen)?;
    pieces.sort_by_key(|piece| piece.tag)?;
    Ok(pieces)
}

/// Lines of one tag.
#[derive(Clone, Copy)]
pub(crate) struct Run<'a> {
    pub(crate) tag: u64,
    /// The kind of leg that the first of them is of.
    pub(crate) kind: LegKind,
    pub(crate) lines: &'a [Piece<'a>],
}

/// How many lines at the front have this tag.
fn count_of_tag(tag: u64, lines: &[Piece<'_>]) -> usize
    ensures most { result ≤ length lines.now }
    ensures same { AllByRecursion (λ line. line.tag ≡ tag) (all_seen (take result lines.now)) }
    ensures other { HasOther tag (all_seen (drop result lines.now)) }
{
    for i in 0..lines.len() {
        if lines[i].tag != tag {
            return i;
        }
    }
    lines.len()
}

/// The lines with the first tag.
pub(crate) fn first_run<'a>(lines: &'a [Piece<'a>]) -> Run<'a>
    requires { 0 < length lines.now }
    ensures { IsFirstRun lines.now result (drop (length result.lines.now) lines.now) }
{
    let line = lines[0];
    let (run, _) = lines.split_at(count_of_tag(line.tag, lines));
    Run {
        tag: line.tag,
        kind: kind_of(line.pipe),
        lines: run,
    }
}
