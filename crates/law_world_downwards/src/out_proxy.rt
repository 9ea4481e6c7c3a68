//! Out proxies and their legs to the server. These functions do nothing: their contracts are the
//! laws.

ghost use Rattle.std.specs.Prelude.{◌≡◌, ◌<◌, ℕ, true, false};
ghost use Rattle.rh_line.specs.declared.leg.Leg.{Leg};
ghost use Rattle.rh_inproxy.specs.State.{InProxy};
ghost use Rattle.rh_outproxy.specs.Machine as out_proxy;
ghost use Rattle.rh_outproxy.specs.OutProxy.{OutProxy, is_put};
ghost use Rattle.rh_client.specs.declared.state.ClientRole.{ClientRole};
ghost use Rattle.rh_server.specs.Servers as server;
ghost use Rattle.rh_server.specs.States.{Server};
ghost use Rattle.rh_shell.specs.declared.course.Course.TheVariants.{Going};
ghost use Rattle.rh_shell.specs.Shells.{ended};
ghost use Rattle.rh_nodes.specs.World.{World};
ghost use Rattle.law_moves.specs.Moves.{is_at_work};
ghost use Rattle.law_node_history.specs.Carried.{came_up, happened};
ghost use Rattle.law_node_history.specs.Histories.{all_noted, nothing};
ghost use Rattle.law_node_begins.specs.ProxiesBegin.Pipes.{co, os};
ghost use Rattle.law_node_traces.specs.Traced.Ours.{deeds, rules};
ghost use Rattle.law_world_order.specs.FirstTexts.{IsPort};
ghost use Rattle.law_world_order.specs.Flows.{numbers_of};
ghost use Rattle.law_world_order.specs.Premises.{InNewWorlds};
ghost use Rattle.law_world_ways.specs.EndsInTime.InTime.{EndsInTime};
ghost use Rattle.law_world_ways.specs.OnPaths.Ways.{out_node, server_node};
ghost use Rattle.law_world_ways.specs.ExactPaths.GoingOn.{AllGoOn};
ghost use Rattle.law_world_downwards.specs.Over.{IsOverDownwards, IsServerDoneLast};

use crate::marking::{a_node_marks_only_what_was_lost, an_end_marks_only_what_was_lost};
use law_node_lasting::{
    an_out_proxy_handed_over_where_it_put_its_mark, an_out_proxy_hands_over_for_good,
};
use law_node_marks::an_out_proxy_that_kept_its_server_is_over_behind_its_mark;
use law_node_traces::{
    a_proxy_that_was_let_go_has_no_leg_up, a_recording_of_roles_is_known,
    legs_of_roles_come_up_once,
};
use law_node_uses::{a_server_that_is_done_stays_done, a_server_uses_an_os_leg_that_it_kept};
use law_world_marks::the_clean_end_went_round_where_a_client_is_done;
use law_world_ways::{
    a_leg_of_use_is_kept, no_head_that_comes_asks_for_an_echo, nothing_on_its_way_is_lost,
};
use rh_client::ClientRole;
use rh_inproxy::InProxyRole;
use rh_outproxy::OutProxyRole;
use rh_server::ServerRole;

/// In each world of new roles that lines lead to by changes that end a leg only where one of its
/// ends is over, while all nodes go on and the server's work is not done: an out proxy whose work
/// is done put OUT_R1/A10. For its leg to the server ends only once the proxy is done, or the
/// server is.
pub fn an_out_proxy_is_over_behind_its_mark_while_the_server_works<K>()
    ensures { InNewWorlds K (λ m w ours.
        IsPort ours.config.port → (v : World K ClientRole Server InProxy OutProxy)
        (ends : EndsInTime rules m deeds w v)
        → (let h = all_noted rules m deeds w nothing ends.lines.leads.changes in
        let numbers = numbers_of ours in AllGoOn numbers h
        → is_at_work server.rules (server_node numbers h).role ≡ true → (n : ℕ)
        → is_at_work out_proxy.rules (out_node numbers h n).role ≡ false
        → is_put (out_node numbers h n).role.handover ≡ true)) }
{
    a_node_marks_only_what_was_lost::<OutProxyRole>();
    an_end_marks_only_what_was_lost::<ServerRole>();
    a_leg_of_use_is_kept();
    a_recording_of_roles_is_known::<K>();
    legs_of_roles_come_up_once::<K>();
    a_proxy_that_was_let_go_has_no_leg_up::<K, ClientRole, ServerRole, InProxyRole, OutProxyRole>();
    nothing_on_its_way_is_lost::<K>();
    no_head_that_comes_asks_for_an_echo::<K>();
    a_server_uses_an_os_leg_that_it_kept();
    a_server_that_is_done_stays_done();
    an_out_proxy_that_kept_its_server_is_over_behind_its_mark();
    an_out_proxy_handed_over_where_it_put_its_mark();
    an_out_proxy_hands_over_for_good();
}

/// And where the server has finished an os leg that is up for both of its ends, of which neither
/// was told that it is lost, no end of a leg closes the out proxy of a channel that came up for the
/// client, as long as the server's work is done only once the client's is. For the server has use
/// for the leg while its work goes on.
pub fn an_out_proxy_goes_on_where_its_server_left<K>()
    ensures { InNewWorlds K (λ m w ours.
        IsPort ours.config.port → (v : World K ClientRole Server InProxy OutProxy)
        (ends : EndsInTime rules m deeds w v)
        → (let h = all_noted rules m deeds w nothing ends.lines.leads.changes in
        let numbers = numbers_of ours in AllGoOn numbers h → IsServerDoneLast numbers h
        → (n : ℕ) → 0 < n → came_up (co n) (happened h.client) ≡ true
        → IsOverDownwards rules v h (os n) → (leg : Leg)
        → (ended out_proxy.rules (out_node numbers h n) leg).0.course ≡ Going)) }
{
    an_end_marks_only_what_was_lost::<ServerRole>();
    a_leg_of_use_is_kept();
    a_recording_of_roles_is_known::<K>();
    nothing_on_its_way_is_lost::<K>();
    a_server_uses_an_os_leg_that_it_kept();
    the_clean_end_went_round_where_a_client_is_done::<K>();
}
