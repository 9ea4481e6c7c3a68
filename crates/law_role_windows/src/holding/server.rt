//! What a server holds. Its function does nothing: its contract is the law.

ghost use Rattle.std.specs.Prelude.{ℕ, List};
ghost use Rattle.rh_window.specs.Sides.{IsWindow};
ghost use Rattle.rh_server.specs.Servers.{first, rules, acts, new_server};
ghost use Rattle.law_moves.specs.Moves.{EndMove, end_started, all_end_moved, AreAllowedAtEnd};
ghost use Rattle.law_moves.specs.Moving.{EndEvent, after_end_events};
ghost use Rattle.law_role_windows.specs.Held.{Holds};

use law_moves::ends_move_by_their_rules;
use rh_server::ServerRole;

/// Whatever happens to a server, by moves or at its node: what it holds of the PDUs that came on
/// its current IN channel, in bytes, is at most its window; and so it is of the next one.
pub fn what_a_server_holds()
    ensures moves { (window : ℕ) (moves : List EndMove) → IsWindow window
        → AreAllowedAtEnd rules acts (end_started (first window)) moves
        → Holds window
        (all_end_moved rules acts (end_started (first window)) moves).passage.role.line }
    ensures events { (window : ℕ) (events : List EndEvent) → IsWindow window
        → Holds window (after_end_events rules acts (new_server window) events).role.line }
{
    ends_move_by_their_rules::<ServerRole>();
}
