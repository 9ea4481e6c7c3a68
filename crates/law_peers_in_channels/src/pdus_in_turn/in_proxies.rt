//! Which RPC PDUs an in proxy puts that reads several IN channels. Its function calls the law that
//! it stands on: its contract is the law.

ghost use Rattle.std.specs.Prelude.{List};
ghost use Rattle.rh_inproxy.specs.declared.state.InProxyConfig.{InProxyConfig};
ghost use Rattle.rh_inproxy.specs.Machine.{rules};
ghost use Rattle.rh_inproxy.specs.State.{first};
ghost use Rattle.law_moves.specs.Moves.{AreAllowed, Move, all_moved, started};
ghost use Rattle.law_peers_in_channels.specs.PdusInTurn.Passing.{HoldsBack};

use law_role_inproxy::an_in_proxy_keeps_order;

/// Whatever allowed moves an in proxy makes: as long as no IN_R1/A5 came on a ci leg, the RPC PDUs
/// that it put on is legs are a front of those that came on its ci legs up to that one, in the
/// order of the legs. So no RPC PDU of a successor passes before the IN_R1/A5 of its predecessor
/// came (MS-RPCH 3.2.3; successors are this profile's).
pub fn an_in_proxy_holds_back_pdus_of_a_successor()
    ensures { (config : InProxyConfig) (moves : List Move)
        → AreAllowed rules (started (first config)) moves
        → HoldsBack config.number (all_moved rules (started (first config)) moves) }
{
    an_in_proxy_keeps_order();
}
