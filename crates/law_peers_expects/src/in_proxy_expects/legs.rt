//! How the legs of an in proxy come up. Its function calls a law that it stands on: its contract is
//! the law.

ghost use Rattle.std.specs.Prelude.{List};
ghost use Rattle.rh_inproxy.specs.declared.state.InProxyConfig.{InProxyConfig};
ghost use Rattle.rh_inproxy.specs.Machine.{rules};
ghost use Rattle.rh_inproxy.specs.State.{first};
ghost use Rattle.law_moves.specs.Moves.{Move, all_moved, started};
ghost use Rattle.law_peers_expects.specs.InProxyExpects.Expected.{CameUpByMoves};

/// Whatever moves an in proxy makes, allowed or not: each ci leg that was up came up by one of
/// them.
pub fn an_in_proxys_legs_came_up()
    ensures { (config : InProxyConfig) (moves : List Move)
        → CameUpByMoves moves (all_moved rules (started (first config)) moves) }
{}
