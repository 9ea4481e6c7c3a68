//! A client opens once.

ghost use Rattle.std.specs.Prelude.{List};
ghost use Rattle.rh_http.specs.declared.config.ClientConfig.{ClientConfig};
ghost use Rattle.rh_client.specs.Client.{acts, rules};
ghost use Rattle.rh_client.specs.State.{first};
ghost use Rattle.law_moves.specs.Moves.{AreAllowedAtEnd, EndMove, all_end_moved, end_started};
ghost use Rattle.law_role_client.specs.Counted.Opening.{OpensOnce};

/// Whatever happens to a client: CONN/C2 came at most once, and it came where the client is open or
/// its work is done, and there alone. Before it came, no packet of a replacement came or was put,
/// and on IN channels the client put no RPC PDU, no acknowledgement and no END.
pub fn a_client_opens_once()
    ensures { (config : ClientConfig) (moves : List EndMove)
        → AreAllowedAtEnd rules acts (end_started (first config)) moves
        → OpensOnce (all_end_moved rules acts (end_started (first config)) moves).passage }
{}
