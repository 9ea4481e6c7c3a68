//! What is read of bytes is in the frames that are whole in them. This function calls the law that
//! it stands on: its contract is the law.

ghost use Rattle.std.specs.Prelude.{List, Some, ℕ};
ghost use Rattle.std.specs.List.{AllByRecursion};
ghost use mathlib.Core.List.{IsPrefix};
ghost use Rattle.rh_sig.specs.declared.name.Pipe.{Pipe};
ghost use Rattle.rh_shell.specs.Rules.{Message};
ghost use Rattle.law_moves.specs.Carrying.{spelled};
ghost use Rattle.law_moves.specs.Legible.Legible.{MayGoOn};
ghost use Rattle.law_moves.specs.ReadBack.Reading.{Begins};
ghost use Rattle.law_peers_chains.specs.Whole.{AreRead, AreWhole, lead};

use law_moves::what_may_go_reads_back;

/// Of bytes that are cut anywhere from those of messages that may go on a pipe and begin as its end
/// reads them, that end reads the messages whose frames are whole in them, and no other: Pings apart.
pub fn what_is_read_is_whole()
    ensures { (pipe : Pipe) (put : List Message) (bytes : List ℕ) (frames : List (List ℕ))
        → Begins (Some pipe) put → AllByRecursion (MayGoOn (Some pipe)) put
        → IsPrefix bytes (spelled put) → AreWhole (lead put) bytes frames
        → AreRead pipe put bytes frames }
{
    what_may_go_reads_back();
}
