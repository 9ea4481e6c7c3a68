//! The laws of reading as order sees it. These functions do nothing: their contracts are the laws.

ghost use Rattle.std.specs.Prelude.{ℕ, ◌≡◌, List, []};
ghost use Rattle.std.specs.List.{AllByRecursion};
ghost use Rattle.std.specs.declared.option.Option.{Option};
ghost use mathlib.Core.List.{IsPrefix};
ghost use Rattle.law_order.specs.Items.{Item};
ghost use Rattle.law_order.specs.Logs.{seen};
ghost use Rattle.rh_sig.specs.declared.name.Pipe.{Pipe};
ghost use Rattle.law_moves.specs.Carrying.{spelled};
ghost use Rattle.rh_shell.specs.Rules.{Message};
ghost use Rattle.law_moves.specs.Legible.Legible.{ReadsBack};
ghost use Rattle.law_moves.specs.ReadBack.Reading.{Begins, ReadsNothing, messages_read, read_of};

/// What order sees of what came is a front of what it sees of what was put, where it sees in each
/// message what it sees in what that is read as.
pub fn what_comes_was_put()
    ensures { (put_view came_view : Message → List Item)
        → ((message : Message) → seen came_view (read_of message) ≡ put_view message)
        → (pipe : Option Pipe) (put came : List Message) (drawn heard : List ℕ) → Begins pipe put
        → AllByRecursion (ReadsBack pipe) put → IsPrefix drawn (spelled put)
        → IsPrefix heard drawn → IsPrefix came (messages_read pipe heard)
        → IsPrefix (seen came_view came) (seen put_view put) }
{}

/// Where bytes were drawn in which nothing is read, nothing came.
pub fn of_a_refusal_nothing_comes()
    ensures { (came_view : Message → List Item) (pipe : Option Pipe) (came : List Message)
        (text drawn heard : List ℕ) → ReadsNothing pipe text → IsPrefix drawn text
        → IsPrefix heard drawn → IsPrefix came (messages_read pipe heard)
        → seen came_view came ≡ [] }
{}
