//! What a client holds. Its function does nothing: its contract is the law.

ghost use Rattle.std.specs.Prelude.{List};
ghost use Rattle.rh_window.specs.Sides.{IsWindow};
ghost use Rattle.rh_http.specs.declared.config.ClientConfig.{ClientConfig};
ghost use Rattle.rh_client.specs.Client.{rules, acts, first_client};
ghost use Rattle.law_moves.specs.Moves.{EndMove};
ghost use Rattle.law_moves.specs.Moving.{EndEvent, after_end_events};
ghost use Rattle.law_role_client.specs.Order.{AreAllowedMoves, client_moved};
ghost use Rattle.law_role_windows.specs.Held.{Holds};

use law_moves::ends_move_by_their_rules;
use rh_client::ClientRole;

/// Whatever happens to a client, by moves or at its node: what it holds of the PDUs that came on
/// its current OUT channel, in bytes, is at most its window; and so it is of the successor.
pub fn what_a_client_holds()
    ensures moves { (config : ClientConfig) (moves : List EndMove) → IsWindow config.window
        → AreAllowedMoves config moves
        → Holds config.window (client_moved config moves).passage.role.line }
    ensures events { (config : ClientConfig) (events : List EndEvent) → IsWindow config.window
        → Holds config.window (after_end_events rules acts (first_client config) events).role.line }
{
    ends_move_by_their_rules::<ClientRole>();
}
