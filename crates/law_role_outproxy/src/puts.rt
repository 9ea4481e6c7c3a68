//! What an out proxy puts to the server and to its client. These functions do nothing: their
//! contracts are the laws.

ghost use Rattle.std.specs.Prelude.{List};
ghost use Rattle.rh_outproxy.specs.declared.state.OutProxyConfig.{OutProxyConfig};
ghost use Rattle.rh_outproxy.specs.Machine.{rules};
ghost use Rattle.rh_outproxy.specs.OutProxy.{new_proxy};
ghost use Rattle.law_moves.specs.Moves.{AreAllowed, Move, all_moved, started};
ghost use Rattle.law_moves.specs.Passages.Counted.{AreCounted};
ghost use Rattle.law_moves.specs.Turns.{AreInTurn};
ghost use Rattle.law_role_outproxy.specs.Putting.{PutsToClient, PutsToServer};

/// Where its moves are counted and in their turn, as a node makes them: to the server an out proxy
/// puts first CONN/A2 with the connection and the channel of a CONN/A1 that came from its client,
/// or OUT_R1/A4 with the connection, the predecessor and the successor of an OUT_R1/A3 that came
/// there, and its own numbers; and behind that only acknowledgements, with the cookie of that
/// channel (MS-RPCH 2.2.4, 3.2.1; successors are this profile's).
pub fn an_out_proxy_opens_to_the_server_first()
    ensures { (config : OutProxyConfig) (moves : List Move)
        → AreAllowed rules (started (new_proxy config)) moves
        → AreCounted rules (started (new_proxy config)) moves
        → AreInTurn rules (new_proxy config) moves
        → PutsToServer config (all_moved rules (started (new_proxy config)) moves) }
{}

/// Where its moves are counted and in their turn, as a node makes them: to its client an out proxy
/// puts the answer to an echo request and nothing else; or, where CONN/A1 came from the client, a
/// front of the response, CONN/A3 with its timeout, Pings, CONN/C2 as the CONN/C1 that came from
/// the server, and then what passes; or, where OUT_R1/A3 came, a front of the response and what
/// passes. What passes are RPC PDUs, END/B2, OUT_R1/A10, Pings, and IN_R1/A4, IN_R2/A4, OUT_R1/A2,
/// OUT_R1/A6 and acknowledgements to the client, as IN_R1/A3, IN_R2/A3, OUT_R1/A1, OUT_R1/A5 and
/// the acknowledgement came for it from the server (MS-RPCH 2.1.2, 2.2.4; successors, replacement
/// and the end are this profile's).
pub fn an_out_proxy_opens_to_its_client_in_order()
    ensures { (config : OutProxyConfig) (moves : List Move)
        → AreAllowed rules (started (new_proxy config)) moves
        → AreCounted rules (started (new_proxy config)) moves
        → AreInTurn rules (new_proxy config) moves
        → PutsToClient config (all_moved rules (started (new_proxy config)) moves) }
{}
