//! The laws of reading bytes. These functions do nothing: their contracts are the laws.

ghost use Rattle.std.specs.Prelude.{ℕ, ◌≡◌, ◌++◌, List};
ghost use Rattle.std.specs.List.{AllByRecursion};
ghost use Rattle.std.specs.declared.option.Option.{Option};
ghost use mathlib.Core.List.{IsPrefix};
ghost use Rattle.rh_sig.specs.declared.name.Pipe.{Pipe};
ghost use Rattle.law_moves.specs.Carrying.{spelled};
ghost use Rattle.rh_shell.specs.Rules.{Message};
ghost use Rattle.law_moves.specs.Legible.Legible.{IsFineMessage, MayGoOn, ReadsBack};
ghost use Rattle.law_moves.specs.ReadBack.Reading.{Begins, all_read_of, begin, messages_from};
ghost use Rattle.law_moves.specs.ReadBack.Reading.{messages_read, reading_after};

/// What is read of the bytes that came is a front of what was put, where that begins as the leg's
/// end reads it and each message reads back.
pub fn what_was_put_is_read()
    ensures { (pipe : Option Pipe) (put : List Message) (drawn heard : List ℕ) → Begins pipe put
        → AllByRecursion (ReadsBack pipe) put → IsPrefix drawn (spelled put)
        → IsPrefix heard drawn → IsPrefix (messages_read pipe heard) (all_read_of put) }
{}

/// In all its bytes all of it is read; and what is read of bytes that come one behind the other is
/// what is read of the first, and then of the others from there.
pub fn all_that_was_put_is_read()
    ensures whole { (pipe : Option Pipe) (put : List Message) → Begins pipe put
        → AllByRecursion (ReadsBack pipe) put
        → messages_read pipe (spelled put) ≡ all_read_of put }
    ensures parts { (pipe : Option Pipe) (a b : List ℕ)
        → messages_read pipe (a ++ b)
        ≡ messages_read pipe a
        ++ messages_from pipe (reading_after pipe (begin pipe) a) b }
{}

/// What is read of messages that may go on a pipe is fine, and so is a front of it.
pub fn what_is_read_is_fine()
    ensures { (pipe : Option Pipe) (put came : List Message) → AllByRecursion (MayGoOn pipe) put
        → IsPrefix came (all_read_of put) → AllByRecursion IsFineMessage came }
{}
