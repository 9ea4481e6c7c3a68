//! What is on its way in a world whose legs end only where they are over. These functions do
//! nothing: their contracts are the laws.

ghost use Rattle.rh_inproxy.specs.State.{InProxy};
ghost use Rattle.rh_outproxy.specs.OutProxy.{OutProxy};
ghost use Rattle.rh_client.specs.declared.state.ClientRole.{ClientRole};
ghost use Rattle.rh_server.specs.States.{Server};
ghost use Rattle.rh_nodes.specs.World.{World};
ghost use Rattle.law_node_history.specs.Histories.{all_noted, nothing};
ghost use Rattle.law_node_traces.specs.Traced.Ours.{deeds, rules};
ghost use Rattle.law_world_order.specs.Directions.{down_route_of, up_route_of};
ghost use Rattle.law_world_order.specs.Flows.{numbers_of};
ghost use Rattle.law_world_order.specs.FirstTexts.{IsPort};
ghost use Rattle.law_world_order.specs.Premises.{InNewWorlds};
ghost use Rattle.law_world_ways.specs.EndsInTime.InTime.{EndsInTime};
ghost use Rattle.law_world_ways.specs.OnPaths.Ways.{AreOnTheirWay, down_lost, up_lost};
ghost use Rattle.law_world_ways.specs.ExactWays.Pdus.{NoneStopsButBehindEnd};
ghost use Rattle.law_world_ways.specs.ExactPaths.Exact.{IsExact};
ghost use Rattle.law_world_ways.specs.ExactPaths.GoingOn.{AllGoOn};
ghost use Rattle.law_world_ways.specs.ExactPaths.Over.{PassesWhereOver};

use crate::exact_ways::{
    a_leg_of_use_is_kept, a_leg_that_came_up_is_known, legs_that_go_on_lose_nothing,
    no_head_that_comes_asks_for_an_echo,
};
use crate::live_intakes::what_comes_is_read;
use crate::marks_put::{a_client_puts_a_mark, a_server_puts_a_mark};
use crate::paths::nothing_on_its_way_is_lost;
use law_moves::{ends_move_by_their_rules, roles_move_by_their_rules};
use law_node_begins::{an_end_never_refuses, proxies_keep_their_pipes};
use law_node_ends::{
    a_leg_that_a_client_left_stays_unused, a_leg_that_a_server_left_stays_unused,
    a_leg_that_an_in_proxy_left_stays_unused, a_leg_that_an_out_proxy_left_stays_unused,
    a_server_is_done_behind_a_mark, an_in_proxy_is_done_behind_a_mark_or_end,
    an_in_proxy_puts_a_mark, an_out_proxy_is_done_behind_a_mark, an_out_proxy_puts_a_mark,
};
use law_node_streams::{a_nodes_stream_grows, an_ends_stream_grows};
use law_node_traces::{
    a_proxy_that_was_let_go_has_no_leg_up, a_recording_of_roles_is_known,
    channels_come_up_in_order, legs_of_roles_come_up_once,
};
use law_peers_routes::{what_goes_down_is_a_route, what_goes_up_is_a_route};
use law_role_client::a_client_takes_in_order;
use law_role_inproxy::an_in_proxy_keeps_order;
use law_role_outproxy::an_out_proxy_keeps_order;
use law_role_server::a_server_takes_in_order;
use rh_client::ClientRole;
use rh_inproxy::InProxyRole;
use rh_outproxy::OutProxyRole;
use rh_server::ServerRole;

/// In each world of new roles that lines lead to by changes that end a leg only where one of its
/// ends is over: while all nodes go on, of the legs of the channels from the taker's current one up
/// to that on which the giver writes each gives all that was put there, or its handover mark or END
/// passed, or END came before on a channel that the same proxy reads. And where the end nearer the
/// client has finished a leg of which neither end was told that it is lost, and all that was put
/// there on the way up came, the handover mark or END came to the node that takes PDUs there.
pub fn what_is_lost_in_time_had_passed<K>()
    ensures down { InNewWorlds K (λ m w ours.
        IsPort ours.config.port → (v : World K ClientRole Server InProxy OutProxy)
        (ends : EndsInTime rules m deeds w v)
        → (let h = all_noted rules m deeds w nothing ends.lines.leads.changes in
        let numbers = numbers_of ours in AllGoOn numbers h
        → (ways : AreOnTheirWay numbers v h)
        → NoneStopsButBehindEnd (down_route_of ways.directions) (down_lost numbers v h))) }
    ensures up { InNewWorlds K (λ m w ours.
        IsPort ours.config.port → (v : World K ClientRole Server InProxy OutProxy)
        (ends : EndsInTime rules m deeds w v)
        → (let h = all_noted rules m deeds w nothing ends.lines.leads.changes in
        let numbers = numbers_of ours in AllGoOn numbers h
        → (ways : AreOnTheirWay numbers v h)
        → NoneStopsButBehindEnd (up_route_of ways.directions) (up_lost numbers v h))) }
    ensures over { InNewWorlds K (λ m w ours.
        IsPort ours.config.port → (v : World K ClientRole Server InProxy OutProxy)
        (ends : EndsInTime rules m deeds w v)
        → (let h = all_noted rules m deeds w nothing ends.lines.leads.changes in
        let numbers = numbers_of ours in AllGoOn numbers h → PassesWhereOver numbers v h)) }
{
    nothing_on_its_way_is_lost::<K>();
    what_goes_down_is_a_route();
    what_goes_up_is_a_route();
    a_recording_of_roles_is_known::<K>();
    legs_of_roles_come_up_once::<K>();
    channels_come_up_in_order::<K, ClientRole, ServerRole, InProxyRole, OutProxyRole>();
    no_head_that_comes_asks_for_an_echo::<K>();
    what_comes_is_read::<K>();
    ends_move_by_their_rules::<ClientRole>();
    ends_move_by_their_rules::<ServerRole>();
    roles_move_by_their_rules::<InProxyRole>();
    roles_move_by_their_rules::<OutProxyRole>();
    a_leg_of_use_is_kept();
    a_leg_that_came_up_is_known();
    a_client_takes_in_order();
    a_server_takes_in_order();
    an_in_proxy_keeps_order();
    an_out_proxy_keeps_order();
    a_server_is_done_behind_a_mark();
    an_in_proxy_is_done_behind_a_mark_or_end();
    an_out_proxy_is_done_behind_a_mark();
    a_client_puts_a_mark();
    a_server_puts_a_mark();
    an_in_proxy_puts_a_mark();
    an_out_proxy_puts_a_mark();
    a_proxy_that_was_let_go_has_no_leg_up::<K, ClientRole, ServerRole, InProxyRole, OutProxyRole>();
    an_ends_stream_grows::<ClientRole>();
    an_ends_stream_grows::<ServerRole>();
    a_nodes_stream_grows::<InProxyRole>();
    a_nodes_stream_grows::<OutProxyRole>();
    an_end_never_refuses();
    proxies_keep_their_pipes();
    a_leg_that_a_client_left_stays_unused();
    a_leg_that_a_server_left_stays_unused();
    a_leg_that_an_in_proxy_left_stays_unused();
    a_leg_that_an_out_proxy_left_stays_unused();
}

/// So what was given is exactly what was taken and what is on its way.
pub fn what_was_given_is_taken_or_on_its_way<K>()
    ensures { InNewWorlds K (λ m w ours.
        IsPort ours.config.port → (v : World K ClientRole Server InProxy OutProxy)
        (ends : EndsInTime rules m deeds w v)
        → (let h = all_noted rules m deeds w nothing ends.lines.leads.changes in
        let numbers = numbers_of ours in AllGoOn numbers h
        → (ways : AreOnTheirWay numbers v h) → IsExact numbers v h ways)) }
{
    what_is_lost_in_time_had_passed::<K>();
    legs_that_go_on_lose_nothing::<K>();
}
