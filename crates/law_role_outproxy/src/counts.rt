//! What an out proxy puts for what came. Its functions do nothing: their contracts are the laws.

ghost use Rattle.std.specs.Prelude.{List, ◌≤◌};
ghost use Rattle.rh_line.specs.declared.leg.Leg.{Leg};
ghost use Rattle.rh_outproxy.specs.declared.state.OutProxyConfig.{OutProxyConfig};
ghost use Rattle.rh_outproxy.specs.Machine.{rules};
ghost use Rattle.rh_outproxy.specs.OutProxy.{new_proxy};
ghost use Rattle.law_moves.specs.Moves.{AreAllowed, Move, all_moved, started};
ghost use Rattle.law_moves.specs.Wires.{of_leg};
ghost use Rattle.law_moves.specs.Passages.Passing.{count_of};
ghost use Rattle.law_moves.specs.Passages.Counted.{AreCounted};
ghost use Rattle.law_moves.specs.PacketKinds.{opens_client};
ghost use Rattle.law_role_outproxy.specs.Counted.{ForwardsWhatCame, OpensAsAsked};
ghost use Rattle.law_role_outproxy.specs.Counted.{OpensWhatCame};

/// Whatever moves an out proxy makes, allowed or not: it put no more of each kind to its client
/// than came for it from the server: CONN/C2 for CONN/C1, IN_R1/A4 for IN_R1/A3, IN_R2/A4 for
/// IN_R2/A3, OUT_R1/A2 for A1, A6 for A5, A10 for A9, and END/B2 for END/B1.
pub fn an_out_proxy_forwards_what_came()
    ensures { (config : OutProxyConfig) (moves : List Move)
        → ForwardsWhatCame config.number (all_moved rules (started (new_proxy config)) moves) }
{}

/// It put no more CONN/A2 to the server and CONN/A3 to its client than CONN/A1 came there, and no
/// more OUT_R1/A4 than OUT_R1/A3.
pub fn an_out_proxy_opens_what_came()
    ensures { (config : OutProxyConfig) (moves : List Move)
        → AreAllowed rules (started (new_proxy config)) moves
        → OpensWhatCame config.number (all_moved rules (started (new_proxy config)) moves) }
{}

/// Whatever moves it makes, allowed or not: each CONN/A2 that it put to the server names the
/// connection and the channel of a CONN/A1 that came from its client; and each OUT_R1/A4 the
/// connection, the predecessor and the successor of an OUT_R1/A3 that came there.
pub fn an_out_proxy_opens_as_it_was_asked()
    ensures { (config : OutProxyConfig) (moves : List Move)
        → OpensAsAsked config.number (all_moved rules (started (new_proxy config)) moves) }
{}

/// Where its moves are counted as a node counts them, at most one packet that opens a channel came
/// on each leg.
pub fn an_out_proxy_is_opened_once()
    ensures { (config : OutProxyConfig) (moves : List Move)
        → AreCounted rules (started (new_proxy config)) moves → (leg : Leg)
        → count_of opens_client
        (of_leg leg (all_moved rules (started (new_proxy config)) moves).came) ≤ 1 }
{}
