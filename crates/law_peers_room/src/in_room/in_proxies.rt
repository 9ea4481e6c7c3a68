//! What waits in an in proxy. This function does nothing: its contract is the law.

ghost use Rattle.std.specs.Prelude.{List};
ghost use Rattle.rh_inproxy.specs.declared.state.InProxyConfig.{InProxyConfig};
ghost use Rattle.rh_inproxy.specs.Machine.{rules};
ghost use Rattle.rh_inproxy.specs.State.{first};
ghost use Rattle.law_moves.specs.Moves.{Move, all_moved, started};
ghost use Rattle.law_peers_room.specs.InRoom.Waiting.{WaitsInTurn};

/// Whatever moves an in proxy makes, allowed or not: what waits to be forwarded is OUT_R1/A8 and
/// acknowledgements to the out proxy. Of each OUT_R1/A7 that came on its ci legs the OUT_R1/A8 was
/// put or waits. Each acknowledgement that waits is of a channel of which one came behind at least
/// as many OUT_R1/A7 as OUT_R1/A8 were put on its is leg or wait before it; and before that one
/// nothing had come on a ci leg behind the next one. No two that wait are for the same channel. And
/// the room is the one with which it began (profile).
pub fn what_waits_in_an_in_proxy_came_in_turn()
    ensures { (config : InProxyConfig) (moves : List Move)
        → WaitsInTurn config.number (all_moved rules (started (first config)) moves) }
{}
