//! A report: the answers that it is made of.

ghost use Rattle.std.specs.Prelude.{◌≡◌, [], ◌∷◌, ◌++◌, OnOk, OnErr};

use crate::answer::Answer;
use std::alloc::{AllocError, Global};
use std::marker::Model;

/// Answers, in the order in which they were added.
#[derive(Debug, Drop)]
pub struct Report {
    answers: Vec<Answer>,
}

impl Model for Report {
    ghost use Rattle.std.specs.Prelude.{List};
    ghost use Rattle.rh_record.specs.declared.answer.Answer.{Answer};

    ghost Value = { List Answer };

    ghost view = { λ a. a.answers.items };
}

impl Report {
    /// A report of no answers, which takes no memory yet.
    pub fn new(alloc: Global) -> Report
        ensures { result ≡ [] }
    {
        Report {
            answers: Vec::new(alloc),
        }
    }

    /// The answers.
    pub fn answers(&self) -> &[Answer]
        ensures { result.now ≡ self.now }
    {
        &self.answers
    }

    /// Adds an answer at the end.
    #[inline(always)]
    pub fn push(&mut self, answer: Answer) -> Result<(), AllocError>
        ensures ok { OnOk result (self.new ≡ self.old ++ answer ∷ []) }
        ensures err { OnErr result (self.new ≡ self.old) }
    {
        self.answers.push(answer)?;
        Ok(())
    }

    /// Forgets the answers, and keeps their room for others.
    pub fn clear(&mut self)
        ensures { self.new ≡ [] }
    {
        self.answers.clear();
    }
}
