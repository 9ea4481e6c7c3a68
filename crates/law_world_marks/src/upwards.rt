//! Legs that the end nearer the client has finished. This function does nothing: its contract is
//! the law.

ghost use Rattle.rh_inproxy.specs.State.{InProxy};
ghost use Rattle.rh_outproxy.specs.OutProxy.{OutProxy};
ghost use Rattle.rh_client.specs.declared.state.ClientRole.{ClientRole};
ghost use Rattle.rh_server.specs.States.{Server};
ghost use Rattle.rh_nodes.specs.World.{World};
ghost use Rattle.law_node_history.specs.Histories.{all_noted, nothing};
ghost use Rattle.law_node_traces.specs.Traced.Ours.{deeds, rules};
ghost use Rattle.law_world_order.specs.FirstTexts.{IsPort};
ghost use Rattle.law_world_order.specs.Flows.{numbers_of};
ghost use Rattle.law_world_order.specs.Premises.{InNewWorlds};
ghost use Rattle.law_world_ways.specs.EndsInTime.InTime.{EndsInTime};
ghost use Rattle.law_world_ways.specs.ExactPaths.GoingOn.{AllGoOn};
ghost use Rattle.law_world_marks.specs.GoingOn.{GoOnWhereOver};

use law_node_marks::{
    a_node_goes_on_where_it_may_lose_a_leg, an_in_proxy_puts_nothing_to_its_client,
    an_out_proxy_that_kept_its_server_is_over_behind_its_mark,
    no_end_closes_an_out_proxy_behind_its_mark,
    no_end_of_a_ci_leg_closes_an_in_proxy_behind_a_mark,
    no_end_of_a_leg_that_is_over_closes_a_server,
    no_end_of_a_leg_that_it_handed_over_closes_a_server,
    no_end_of_a_leg_that_was_handed_over_closes_a_server,
};
use law_peers_routes::what_goes_down_is_a_route;
use law_world_ways::{no_head_that_comes_asks_for_an_echo, what_is_lost_in_time_had_passed};
use rh_inproxy::InProxyRole;

/// In each world of new roles that lines lead to by changes that end a leg only where one of its
/// ends is over, while all nodes go on, of each leg that is up for both of its ends, of which
/// neither was told that it is lost, that the end nearer the client has finished, and of which all
/// that was put there on the way up came: where a leg of the client ends so, its proxy goes on. The
/// server goes on where an os leg does, unless it put END/B1, and where an is leg does once it put
/// that, and drew all that it put there.
pub fn nodes_go_on_where_legs_are_over_upwards<K>()
    ensures { InNewWorlds K (λ m w ours.
        IsPort ours.config.port → (v : World K ClientRole Server InProxy OutProxy)
        (ends : EndsInTime rules m deeds w v)
        → (let h = all_noted rules m deeds w nothing ends.lines.leads.changes in
        let numbers = numbers_of ours in AllGoOn numbers h → GoOnWhereOver numbers v h)) }
{
    what_is_lost_in_time_had_passed::<K>();
    no_head_that_comes_asks_for_an_echo::<K>();
    what_goes_down_is_a_route();
    no_end_closes_an_out_proxy_behind_its_mark();
    no_end_of_a_ci_leg_closes_an_in_proxy_behind_a_mark();
    an_in_proxy_puts_nothing_to_its_client();
    a_node_goes_on_where_it_may_lose_a_leg::<InProxyRole>();
    an_out_proxy_that_kept_its_server_is_over_behind_its_mark();
    no_end_of_a_leg_that_it_handed_over_closes_a_server();
    no_end_of_a_leg_that_was_handed_over_closes_a_server();
    no_end_of_a_leg_that_is_over_closes_a_server();
}
