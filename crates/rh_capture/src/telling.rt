//! Tells the capture of a run while it runs.

ghost use Rattle.std.specs.Prelude.{string_bytes};
ghost use Rattle.rh_text.specs.Writing.{Writes};
ghost use Rattle.rh_capture.specs.Captured.{all_seen};
ghost use Rattle.rh_capture.specs.Texts.{lines_text};

use crate::capturing::Moved;
use crate::tags::Tags;
use crate::writing::{write_first, write_moved};
use rh_record::{Answer, Line};
use rh_teller::Teller;
use std::alloc::{AllocError, Global};

/// Appends a line of a capture, where there is one.
fn write_some(line: Option<Moved<'_>>, out: &mut String) -> Result<(), AllocError>
    ensures { Writes (lines_text (all_seen line.entry)) result (string_bytes out.old) (string_bytes out.new) }
{
    match line {
        Some(line) => write_moved(line, out),
        None => Ok(()),
    }
}

impl Teller for Tags {
    ghost use Rattle.rh_capture.specs.Telling.{capturing};

    ghost tale = { capturing };

    fn start(alloc: Global) -> Result<Tags, AllocError> {
        Ok(Tags::new(alloc))
    }

    fn tell_line(&mut self, line: &Line, out: &mut String) -> Result<(), AllocError> {
        match line {
            Line::First { .. } => write_first(out),
            _ => Ok(()),
        }
    }

    fn tell(&mut self, _: Global, answer: &Answer, out: &mut String) -> Result<(), AllocError> {
        let line = self.line(answer)?;
        write_some(line, out)
    }
}
