//! The law of streams of the two proxies. These functions only call the laws that they join: their
//! contracts are the law.

ghost use Rattle.std.specs.Prelude.{List};
ghost use Rattle.rh_inproxy.specs.declared.state.InProxyConfig.{InProxyConfig};
ghost use Rattle.rh_inproxy.specs.Machine as in_proxy;
ghost use Rattle.rh_inproxy.specs.State as in_state;
ghost use Rattle.rh_outproxy.specs.declared.out_proxy.TheConstants as out_proxies;
ghost use Rattle.rh_outproxy.specs.declared.state.OutProxyConfig.{OutProxyConfig};
ghost use Rattle.rh_outproxy.specs.Machine as out_proxy;
ghost use Rattle.rh_outproxy.specs.OutProxy.{new_proxy};
ghost use Rattle.law_moves.specs.Moving.{Event};
ghost use Rattle.law_role_inproxy.specs.Order as in_order;
ghost use Rattle.law_role_outproxy.specs.Order as out_order;
ghost use Rattle.law_node_begins.specs.ProxiesBegin.Pipes.{in_pipe, out_pipe};
ghost use Rattle.law_node_order.specs.Sides.{in_feed, out_feed};
ghost use Rattle.law_node_order.specs.Streams.{StreamsThrough};

use law_node_begins::{
    an_in_proxy_refuses_first, an_out_proxy_refuses_first, proxies_keep_their_pipes,
};
use law_node_causes::{an_in_proxys_leg_comes_up_once, an_out_proxys_leg_comes_up_once};
use law_node_ends::{
    a_leg_that_an_in_proxy_left_stays_unused, a_leg_that_an_out_proxy_left_stays_unused,
};
use law_node_streams::{a_nodes_stream, what_refuses_first_refuses_in_turn};
use law_role_inproxy::an_in_proxy_keeps_order;
use law_role_outproxy::an_out_proxy_keeps_order;
use rh_inproxy::InProxyRole;
use rh_outproxy::OutProxyRole;

/// Whatever happens at an in proxy and whatever comes on its legs: the bytes that it drew on each
/// leg are a front of those of messages that it put, or of a refusal where it put nothing. The RPC
/// PDUs that it put to the server are a front of those in the bytes that it was fed on its ci legs,
/// in order of their numbers: of each leg those up to IN_R1/A5, and of none behind one without it.
/// Behind IN_R1/A6 it puts nothing, and behind END/A2 no PDU. It puts IN_R1/A6 only behind all PDUs
/// that it was fed before the IN_R1/A5 of the last of these legs, and END/A2 only where END/A1 was
/// fed, behind all PDUs before that. On its ci legs it puts no RPC PDU.
///
/// Bytes are fed where the node goes on, on a leg that is up and of use; others change nothing.
pub fn an_in_proxys_streams_keep_order()
    ensures { (config : InProxyConfig) (events : List Event)
        → StreamsThrough in_proxy.rules (in_state.first config) in_proxy.rooms (in_pipe config)
        in_feed config.number in_order.put_items events }
{
    a_nodes_stream::<InProxyRole>();
    what_refuses_first_refuses_in_turn::<InProxyRole>();
    proxies_keep_their_pipes();
    a_leg_that_an_in_proxy_left_stays_unused();
    an_in_proxys_leg_comes_up_once();
    an_in_proxy_refuses_first();
    an_in_proxy_keeps_order();
}

/// The same at an out proxy, from the server to its client: it is fed up to OUT_R1/A9, and END/B1,
/// for which it puts OUT_R1/A10 and END/B2. To the server it puts no RPC PDU.
pub fn an_out_proxys_streams_keep_order()
    ensures { (config : OutProxyConfig) (events : List Event)
        → StreamsThrough out_proxy.rules (new_proxy config) out_proxies.ROOMS (out_pipe config)
        out_feed config.number (out_order.put_items config.number) events }
{
    a_nodes_stream::<OutProxyRole>();
    what_refuses_first_refuses_in_turn::<OutProxyRole>();
    proxies_keep_their_pipes();
    a_leg_that_an_out_proxy_left_stays_unused();
    an_out_proxys_leg_comes_up_once();
    an_out_proxy_refuses_first();
    an_out_proxy_keeps_order();
}
