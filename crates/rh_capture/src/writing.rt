//! The text of a capture.
//!
//! Each call fails where there is no memory; a front of what was to be appended may stand in `out`
//! then, and nothing else.

ghost use Rattle.std.specs.Prelude.{◌≡◌, OnOk, ◌++◌, string_bytes};
ghost use Rattle.rh_text.specs.Writing.{Writes};
ghost use Rattle.rh_audit.specs.declared.seen.Seen.{Seen};
ghost use Rattle.rh_capture.specs.Captured.{seen_of};
ghost use Rattle.rh_capture.specs.Texts.{capture_text, first_text, line_text, lines_text};

use crate::capturing::Moved;
use crate::pipes::word_of;
use rh_audit::Seen;
use rh_text::{Part, write_parts};
use std::alloc::AllocError;

const SPACE: Part<'static> = Part::Text(" ");

/// Appends the first line of a capture.
pub fn write_first(out: &mut String) -> Result<(), AllocError>
    ensures { Writes first_text result (string_bytes out.old) (string_bytes out.new) }
{
    out.push_str("cap 1\n")
}

/// Appends a line of a capture.
pub fn write_moved(line: Moved<'_>, out: &mut String) -> Result<(), AllocError>
    ensures { Writes (line_text (seen_of line.entry)) result
        (string_bytes out.old) (string_bytes out.new) }
{
    let (tag, pipe) = (Part::Number(line.tag), Part::Text(word_of(line.pipe)));
    let (bytes, end) = (Part::Hex(line.bytes), Part::Text("\n"));
    write_parts(
        &[Part::Text("seen "), tag, SPACE, pipe, SPACE, bytes, end],
        out,
    )
}
