//! What an in proxy puts for what came. Its functions do nothing: their contracts are the laws.

ghost use Rattle.std.specs.Prelude.{List};
ghost use Rattle.rh_inproxy.specs.declared.state.InProxyConfig.{InProxyConfig};
ghost use Rattle.rh_inproxy.specs.Machine.{rules};
ghost use Rattle.rh_inproxy.specs.State.{first};
ghost use Rattle.law_moves.specs.Moves.{AreAllowed, Move, all_moved, started};
ghost use Rattle.law_role_inproxy.specs.Counted.{HappensOnce, IsLetGo, PutsForWhatCame};

/// Whatever moves an in proxy makes, allowed or not: to the server it put no more CONN/B2 than
/// CONN/B1 came on its ci legs; of each successor, and of all, no more IN_R1/A2 and IN_R2/A2 than
/// IN_R1/A1; no more IN_R1/A6 than IN_R1/A5; and of each successor, and of all, no more OUT_R1/A8
/// than OUT_R1/A7.
pub fn an_in_proxy_puts_for_what_came()
    ensures { (config : InProxyConfig) (moves : List Move)
        → PutsForWhatCame config.number (all_moved rules (started (first config)) moves) }
{}

/// Whatever moves it makes, allowed or not: CONN/B1 came at most once on its ci legs, one of
/// CONN/B3 and IN_R1/B2 at most once from the server, and IN_R1/A6 was put at most once; where it
/// was put, the handover has passed.
pub fn an_in_proxy_opens_and_hands_over_once()
    ensures { (config : InProxyConfig) (moves : List Move)
        → HappensOnce config.number (all_moved rules (started (first config)) moves) }
{}

/// IN_R1/B1 came from the server at most as often as IN_R1/A6 was put.
pub fn an_in_proxy_is_let_go_for_what_it_put()
    ensures { (config : InProxyConfig) (moves : List Move)
        → AreAllowed rules (started (first config)) moves
        → IsLetGo config.number (all_moved rules (started (first config)) moves) }
{}
