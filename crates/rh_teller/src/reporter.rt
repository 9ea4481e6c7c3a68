//! The teller of a report.

use crate::telling::Teller;
use rh_record::{Answer, Line, write_answer};
use std::alloc::{AllocError, Global};

/// Tells the report: nothing of a line, and the text of each answer.
#[derive(Clone, Copy, Debug)]
pub struct Reporter;

impl Teller for Reporter {
    ghost use Rattle.rh_teller.specs.Reports.{report};

    ghost tale = { report };

    fn start(_: Global) -> Result<Reporter, AllocError> {
        Ok(Reporter)
    }

    fn tell_line(&mut self, _: &Line, _: &mut String) -> Result<(), AllocError> {
        Ok(())
    }

    fn tell(&mut self, _: Global, answer: &Answer, out: &mut String) -> Result<(), AllocError> {
        write_answer(answer, out)
    }
}
