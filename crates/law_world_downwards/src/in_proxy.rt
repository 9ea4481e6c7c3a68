//! Legs to the server that this has finished, at in proxies. This function does nothing: its
//! contract is the law.

ghost use Rattle.std.specs.Prelude.{◌≡◌, ℕ};
ghost use Rattle.rh_line.specs.declared.leg.Leg.{Leg};
ghost use Rattle.rh_shell.specs.declared.course.Course.TheVariants.{Going};
ghost use Rattle.rh_shell.specs.Shells.{ended};
ghost use Rattle.rh_inproxy.specs.Machine as in_proxy;
ghost use Rattle.law_node_begins.specs.ProxiesBegin.Pipes.{is};
ghost use Rattle.law_node_traces.specs.Traced.Ours.{rules};
ghost use Rattle.law_node_traces.specs.Traced.Recordings.{history_at};
ghost use Rattle.law_world_order.specs.FirstTexts.{IsPort};
ghost use Rattle.law_world_order.specs.Flows.{numbers_of};
ghost use Rattle.law_world_order.specs.Premises.{AtEachMoment, InNewWorlds};
ghost use Rattle.law_world_ways.specs.OnPaths.Ways.{in_node};
ghost use Rattle.law_world_ways.specs.ExactPaths.GoingOn.{AllGoOn};
ghost use Rattle.law_world_downwards.specs.Over.{DrewInR1B1, IsOverDownwards};

use law_node_marks::{
    a_node_goes_on_where_it_may_lose_a_leg, no_end_closes_an_in_proxy_that_was_told,
};
use law_node_traces::{
    a_proxy_that_was_let_go_has_no_leg_up, a_recording_of_roles_is_known,
    legs_of_roles_come_up_once,
};
use law_world_ways::{
    a_leg_of_use_is_kept, no_head_that_comes_asks_for_an_echo, nothing_on_its_way_is_lost,
    what_comes_is_read,
};
use rh_client::ClientRole;
use rh_inproxy::InProxyRole;
use rh_outproxy::OutProxyRole;
use rh_server::ServerRole;

/// In each world of new roles whose numbers are in their ranges, at every moment that changes of
/// lines and half steps reach, while all nodes go on: where the server has finished an is leg that
/// is up for both of its ends, of which neither was told that it is lost, all that it put there
/// came and IN_R1/B1 stands in what it drew there, no end of a leg closes the in proxy, whose work
/// is done.
pub fn an_in_proxy_goes_on_where_its_server_left<K>()
    ensures { InNewWorlds K (λ m w ours. IsPort ours.config.port → AtEachMoment m w (λ v by.
        (let h = history_at m w v by.leads in let numbers = numbers_of ours in
        AllGoOn numbers h → (n : ℕ) → IsOverDownwards rules v h (is n) → DrewInR1B1 numbers h n
        → (leg : Leg) → (ended in_proxy.rules (in_node numbers h n) leg).0.course ≡ Going))) }
{
    a_leg_of_use_is_kept();
    a_recording_of_roles_is_known::<K>();
    legs_of_roles_come_up_once::<K>();
    a_proxy_that_was_let_go_has_no_leg_up::<K, ClientRole, ServerRole, InProxyRole, OutProxyRole>();
    nothing_on_its_way_is_lost::<K>();
    no_head_that_comes_asks_for_an_echo::<K>();
    what_comes_is_read::<K>();
    no_end_closes_an_in_proxy_that_was_told();
    a_node_goes_on_where_it_may_lose_a_leg::<InProxyRole>();
}
