//! What an in proxy puts on its is leg. These functions do nothing, or call a law that they stand
//! on: their contracts are the laws.

ghost use Rattle.std.specs.Prelude.{List};
ghost use Rattle.rh_inproxy.specs.declared.state.InProxyConfig.{InProxyConfig};
ghost use Rattle.rh_inproxy.specs.Machine.{rules};
ghost use Rattle.rh_inproxy.specs.State.{first};
ghost use Rattle.law_moves.specs.Moves.{AreAllowed, Move, all_moved, started};
ghost use Rattle.law_moves.specs.Wires.{of_leg};
ghost use Rattle.law_role_inproxy.specs.Putting.Standing.{EndsLast, SendsWhereTold};
ghost use Rattle.law_role_inproxy.specs.Putting.Puts.{ArePutUp, PutsInOrder, is_leg};

/// Whatever moves an in proxy makes, allowed or not, if it puts only on legs that are up: on its is
/// leg stands first CONN/B2 or IN_R1/A2, with its own window and timeout and with what CONN/B1 or
/// IN_R1/A1 told, which came first on its lowest ci leg. Behind it stands IN_R2/A2 once for each
/// later ci leg of which the server is told, in the order of their numbers, with the cookie of the
/// IN_R1/A1 that came there. Each RPC PDU came on a ci leg of which the server was told before it.
/// Between them stand acknowledgements of channels that began on ci legs, those that came for the
/// out proxy, OUT_R1/A8 for OUT_R1/A7, END/A2 and Pings; and then at most one IN_R1/A6, with the
/// cookie of the IN_R1/A5 that came on the ci leg of which the server was told last, and behind it
/// only Pings (MS-RPCH 2.2.4, 3.2.3; several ci legs are this profile's).
pub fn an_in_proxy_puts_in_order()
    ensures { (config : InProxyConfig) (moves : List Move)
        → ArePutUp rules (started (first config)) moves
        → PutsInOrder config (all_moved rules (started (first config)) moves) }
{}

/// Whatever moves an in proxy makes: an RPC PDU stands on its is leg only where CONN/B3 or IN_R1/B2
/// came there, by which the server tells its window (MS-RPCH 3.2.1, 3.2.3).
pub fn an_in_proxy_sends_where_it_was_told()
    ensures { (config : InProxyConfig) (moves : List Move)
        → AreAllowed rules (started (first config)) moves
        → SendsWhereTold config (all_moved rules (started (first config)) moves) }
{}

/// Whatever moves it makes: behind the first END/A2 on its is leg stands neither an RPC PDU nor
/// END/A2 (profile).
pub fn an_in_proxy_ends_last()
    ensures { (config : InProxyConfig) (moves : List Move)
        → AreAllowed rules (started (first config)) moves
        → EndsLast
        (of_leg (is_leg config.number) (all_moved rules (started (first config)) moves).put) }
{
    crate::an_in_proxy_keeps_order();
}
