//! Which channels an in proxy acknowledges. This function does nothing: its contract is the law.

ghost use Rattle.std.specs.Prelude.{List};
ghost use Rattle.rh_inproxy.specs.declared.state.InProxyConfig.{InProxyConfig};
ghost use Rattle.rh_inproxy.specs.Machine.{rules};
ghost use Rattle.rh_inproxy.specs.State.{first};
ghost use Rattle.law_moves.specs.Moves.{Move, all_moved, started};
ghost use Rattle.law_peers_room.specs.ServerRoom.Acks.{AcknowledgesInOrder};

/// Whatever moves an in proxy makes, allowed or not: on its is leg each acknowledgement to the
/// client has the cookie with which the channel of one of two ci legs began, and an RPC PDU came
/// there. Behind as many IN_R2/A2 as ci legs there are from its lowest one, which has its number,
/// to another one, it is the channel of that leg or of the one before it (MS-RPCH 3.2.1; several ci
/// legs over one is leg are this profile's).
pub fn an_in_proxy_acknowledges_in_order()
    ensures { (config : InProxyConfig) (moves : List Move)
        → AcknowledgesInOrder config (all_moved rules (started (first config)) moves) }
{}
