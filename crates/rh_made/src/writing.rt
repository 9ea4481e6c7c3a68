//! The text of a summary.

ghost use Rattle.std.specs.Prelude.{string_bytes};
ghost use Rattle.rh_text.specs.Writing.{Writes};
ghost use Rattle.rh_made.specs.Texts.{summary_text};

use crate::summary::Summary;
use rh_record::write_report;
use rh_text::{Part, write_parts};
use std::alloc::AllocError;

/// Appends the text of a summary: the last lines of the report, and a line for each sum.
///
/// Fails where there is no memory; a front of the text may stand in `out` then, and nothing else.
pub fn write_summary(summary: &Summary, out: &mut String) -> Result<(), AllocError>
    ensures { Writes (summary_text summary.now) result (string_bytes out.old)
        (string_bytes out.new) }
{
    write_report(&summary.last, out)?;
    write_parts(
        &[
            Part::Text("moved "),
            Part::Number(summary.moved),
            Part::Text("\nrounds "),
            Part::Number(summary.rounds),
            Part::Text("\n"),
        ],
        out,
    )
}
