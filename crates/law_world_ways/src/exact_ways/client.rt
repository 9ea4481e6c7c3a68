//! A client whose work is done. This function does nothing: its contract is the law.

ghost use Rattle.std.specs.Prelude.{◌≡◌, ◌<◌, ◌≤◌, ◌||◌, ℕ, List, true};
ghost use Rattle.law_order.specs.Items.{has_end, has_handover};
ghost use Rattle.rh_http.specs.declared.config.ClientConfig.{ClientConfig};
ghost use Rattle.rh_shell.specs.declared.answers.Phase.TheVariants as phase;
ghost use Rattle.law_moves.specs.Moves.{EndMove};
ghost use Rattle.law_role_client.specs.Order.{AreAllowedMoves, came_log, client_moved, put_log};

use law_role_client::a_client_gives_in_order;

/// Whatever happens to a client: where its work is done it put IN_R1/A5 or END/A1 on each IN
/// channel up to the one on which it writes, and OUT_R1/A10 or END/B2 came on each OUT channel up
/// to the current one (MS-RPCH 3.2.2; the packets of replacement and of the end are this
/// profile's).
pub fn a_client_whose_work_is_done_gave_and_took_all()
    ensures gave { (config : ClientConfig) (moves : List EndMove) → AreAllowedMoves config moves
        → (let p = client_moved config moves in
        p.passage.role.phase ≡ phase.Ended → (n : ℕ) → 0 < n
        → n ≤ p.passage.role.writing.number
        → (has_handover (put_log p.passage.put n) || has_end (put_log p.passage.put n)) ≡ true) }
    ensures took { (config : ClientConfig) (moves : List EndMove) → AreAllowedMoves config moves
        → (let p = client_moved config moves in
        p.passage.role.phase ≡ phase.Ended → (n : ℕ) → 0 < n
        → n ≤ p.passage.role.current.number
        → (has_handover (came_log p.passage.came n) || has_end (came_log p.passage.came n))
        ≡ true) }
{
    a_client_gives_in_order();
}
