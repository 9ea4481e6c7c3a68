//! What a client asks for behind OUT_R1/A2. Its function does nothing: its contract is the law.

ghost use Rattle.std.specs.Prelude.{◌++◌, List};
ghost use Rattle.rh_http.specs.declared.config.ClientConfig.{ClientConfig};
ghost use Rattle.law_moves.specs.Moves.{EndMove};
ghost use Rattle.law_role_client.specs.Order.{AreAllowedMoves, client_moved};
ghost use Rattle.law_peers_forwarding.specs.Answering.Wishes.{AsksOneBehind};

/// Whatever happens to a client: as long as OUT_R1/A10 came fewer times than OUT_R1/A2 had come
/// once, it puts at most one more IN_R1/A1 than answers for IN channels had come then (the
/// replacement of channels is this profile's).
pub fn a_client_asks_for_one_in_channel_behind_a_wish()
    ensures { (config : ClientConfig) (before later : List EndMove)
        → AreAllowedMoves config (before ++ later)
        → AsksOneBehind (client_moved config before).passage
        (client_moved config (before ++ later)).passage }
{}
