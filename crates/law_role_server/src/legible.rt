//! What a server puts reads back. Its function does nothing: its contract is the law.

ghost use Rattle.std.specs.Prelude.{ℕ, List};
ghost use Rattle.rh_window.specs.Sides.{IsWindow};
ghost use Rattle.rh_server.specs.Servers.{rules, acts, first};
ghost use Rattle.law_moves.specs.Legible.Legible.{IsLegible};
ghost use Rattle.law_moves.specs.Moves.{EndMove, all_end_moved, end_started};
ghost use Rattle.law_role_server.specs.Legible.{pipe_put};

use law_moves::what_may_go_reads_back;

/// Whatever happens to a server, each message that it puts is read on its leg as what was put, as
/// long as the packets that its rows took have their sizes and ranges. Of the PDUs that it is given
/// nothing is asked: it accepts PDUs only.
pub fn what_a_server_puts_reads_back()
    ensures { (window : ℕ) (moves : List EndMove) → IsWindow window
        → IsLegible pipe_put
        (all_end_moved rules acts (end_started (first window)) moves).passage }
{
    what_may_go_reads_back();
}
