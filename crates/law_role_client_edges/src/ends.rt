//! When a client's work is done. This function does nothing: its contract is the law.

ghost use Rattle.std.specs.Prelude.{◌≡◌, List, false};
ghost use Rattle.rh_http.specs.declared.config.ClientConfig.{ClientConfig};
ghost use Rattle.rh_client.specs.Client.{rules};
ghost use Rattle.law_moves.specs.Moves.{EndMove, is_at_work};
ghost use Rattle.law_role_client.specs.Order.{AreAllowedMoves, client_moved};
ghost use Rattle.law_role_client_edges.specs.Ending.{EndsLast};

/// Whatever happens to a client: where its work is done, it put END/A1 on its writing channel and
/// END/B2 came on its current one; and no replacement is under way, so that each successor that it
/// asked for took its predecessor's place (MS-RPCH 3.2.2.5; the clean end is this profile's).
pub fn a_client_ends_last()
    ensures { (config : ClientConfig) (moves : List EndMove) → AreAllowedMoves config moves
        → is_at_work rules (client_moved config moves).passage.role ≡ false
        → EndsLast (client_moved config moves).passage }
{}
