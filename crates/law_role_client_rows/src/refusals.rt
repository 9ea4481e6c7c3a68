//! A client refuses what the other roles don't send.

ghost use Rattle.std.specs.Prelude.{List};
ghost use Rattle.rh_http.specs.declared.config.ClientConfig.{ClientConfig};
ghost use Rattle.rh_client.specs.Client.{acts, rules};
ghost use Rattle.rh_client.specs.State.{first};
ghost use Rattle.law_moves.specs.Moves.{AreAllowedAtEnd, EndMove, all_end_moved, end_started};
ghost use Rattle.law_role_client_rows.specs.Refusing.{Refuses};

/// Whatever happens to a client: where it refuses a packet or an RPC PDU as unexpected, on a leg
/// that was up and is in use, what came to it before and what it put are so that none was to come
/// there. It refuses nothing for its cookie.
pub fn what_a_client_refuses()
    ensures { (config : ClientConfig) (moves : List EndMove)
        → AreAllowedAtEnd rules acts (end_started (first config)) moves
        → Refuses (all_end_moved rules acts (end_started (first config)) moves).passage }
{}
