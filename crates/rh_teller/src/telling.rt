//! What is told of a recording.

ghost use Rattle.std.specs.Prelude.{◌≡◌, IfOk, OnOk, string_bytes};
ghost use Rattle.rh_text.specs.Writing.{Writes};
ghost use Rattle.rh_teller.specs.Tales.{Tale, told, behind};

use rh_record::{Answer, Line};
use std::alloc::{AllocError, Global};

/// Tells of a recording while it runs. It is told each line, and then each answer to that line; what
/// it appends, one behind the other, is its tale.
pub trait Teller: Drop {
    /// As what it begins, what it tells of a line and of an answer, and what it is behind each.
    ghost tale: { Tale Self };

    /// The teller before the first line. Fails where there is no memory.
    fn start(alloc: Global) -> Result<Self, AllocError>
        ensures { IfOk result (λ teller. teller ≡ tale.first) };

    /// Appends what is told of a line before it is answered.
    ///
    /// Fails where there is no memory; a front of that may stand in `out` then, and nothing else.
    fn tell_line(&mut self, line: &Line, out: &mut String) -> Result<(), AllocError>
        ensures text { Writes (tale.line self.old line.now) result
            (string_bytes out.old) (string_bytes out.new) }
        ensures heard { OnOk result (self.new ≡ tale.heard self.old line.now) };

    /// Appends what is told of an answer.
    ///
    /// Fails where there is no memory; a front of that may stand in `out` then, and nothing else.
    fn tell(&mut self, alloc: Global, answer: &Answer, out: &mut String) -> Result<(), AllocError>
        ensures text { Writes (tale.answer self.old answer.now) result
            (string_bytes out.old) (string_bytes out.new) }
        ensures after { OnOk result (self.new ≡ tale.after self.old answer.now) };
}

/// Appends what is told of answers, one behind the other.
///
/// Fails where there is no memory; a front of that may stand in `out` then, and nothing else.
pub fn tell_all<T: Teller>(
    alloc: Global,
    teller: &mut T,
    answers: &[Answer],
    out: &mut String,
) -> Result<(), AllocError>
    ensures text { Writes (told T.tale teller.old answers.now) result
        (string_bytes out.old) (string_bytes out.new) }
    ensures behind { OnOk result (teller.new ≡ behind T.tale teller.old answers.now) }
{
    for answer in answers {
        teller.tell(alloc, answer, out)?;
    }
    Ok(())
}
