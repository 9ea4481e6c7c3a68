//! An out proxy that handed over. These functions do nothing: their contracts are the laws.

ghost use Rattle.std.specs.Prelude.{◌≡◌, List, true};
ghost use Rattle.std.specs.declared.option.Option.{Option};
ghost use Rattle.law_order.specs.Items.{has_handover};
ghost use Rattle.rh_sig.specs.declared.name.Pipe.{Pipe};
ghost use Rattle.rh_line.specs.declared.leg.Leg.{Leg};
ghost use Rattle.rh_shell.specs.Shells.{begun};
ghost use Rattle.rh_outproxy.specs.declared.out_proxy.TheConstants.{ROOMS};
ghost use Rattle.rh_outproxy.specs.declared.state.OutProxyConfig.{OutProxyConfig};
ghost use Rattle.rh_outproxy.specs.Machine.{rules};
ghost use Rattle.rh_outproxy.specs.OutProxy.{is_put, new_proxy};
ghost use Rattle.law_moves.specs.Moving.{Event, after_events};
ghost use Rattle.law_role_outproxy.specs.Order.{put_items};
ghost use Rattle.law_node_streams.specs.Streams.{Stream};

use law_moves::roles_move_by_their_rules;
use law_role_outproxy::an_out_proxy_keeps_order;
use rh_outproxy::OutProxyRole;

/// Whatever happens at the node of an out proxy: it has handed over exactly where it put OUT_R1/A10.
pub fn an_out_proxy_handed_over_where_it_put_its_mark()
    ensures { (config : OutProxyConfig) (pipe : Leg → Option Pipe) (events : List Event)
        (stream : Stream rules (new_proxy config) ROOMS pipe events)
        → is_put (after_events rules (begun (new_proxy config) ROOMS) events).role.handover
        ≡ has_handover (put_items config.number stream.passage.put) }
{
    an_out_proxy_keeps_order();
}

/// And once it has, it has for good.
pub fn an_out_proxy_hands_over_for_good()
    ensures { (config : OutProxyConfig) (events more : List Event)
        → (let node = after_events rules (begun (new_proxy config) ROOMS) events in
        is_put node.role.handover ≡ true
        → is_put (after_events rules node more).role.handover ≡ true) }
{
    roles_move_by_their_rules::<OutProxyRole>();
}
