//! The legs that a client leaves. Its function does nothing: its contract is the law.

ghost use Rattle.std.specs.Prelude.{◌≡◌, ◌<◌, ℕ, List, true, false};
ghost use Rattle.law_order.specs.Items.{has_handover};
ghost use Rattle.rh_http.specs.declared.config.ClientConfig.{ClientConfig};
ghost use Rattle.rh_client.specs.Client.{rules};
ghost use Rattle.rh_client.specs.State.{ci, co};
ghost use Rattle.law_moves.specs.Moves.{EndMove, is_at_work, is_in_use};
ghost use Rattle.law_role_client.specs.Order.{AreAllowedMoves, came_log, client_moved, put_log};

use law_role_client::{a_client_gives_in_order, a_client_takes_in_order};

/// Whatever happens to a client: it has no use for a ci leg on which it put IN_R1/A5, nor for a co
/// leg on which OUT_R1/A10 came; and while its work goes on, for no others has it none.
pub fn a_client_leaves_what_was_handed_over()
    ensures ins { (config : ClientConfig) (moves : List EndMove) → AreAllowedMoves config moves
        → (let p = client_moved config moves in (n : ℕ)
        → has_handover (put_log p.passage.put n) ≡ true
        → is_in_use rules p.passage.role (ci n) ≡ false) }
    ensures outs { (config : ClientConfig) (moves : List EndMove) → AreAllowedMoves config moves
        → (let p = client_moved config moves in (n : ℕ)
        → has_handover (came_log p.passage.came n) ≡ true
        → is_in_use rules p.passage.role (co n) ≡ false) }
    ensures no_other_ins { (config : ClientConfig) (moves : List EndMove)
        → AreAllowedMoves config moves
        → (let p = client_moved config moves in (n : ℕ) → 0 < n
        → is_at_work rules p.passage.role ≡ true → is_in_use rules p.passage.role (ci n) ≡ false
        → has_handover (put_log p.passage.put n) ≡ true) }
    ensures no_other_outs { (config : ClientConfig) (moves : List EndMove)
        → AreAllowedMoves config moves
        → (let p = client_moved config moves in (n : ℕ) → 0 < n
        → is_at_work rules p.passage.role ≡ true → is_in_use rules p.passage.role (co n) ≡ false
        → has_handover (came_log p.passage.came n) ≡ true) }
{
    a_client_gives_in_order();
    a_client_takes_in_order();
}
