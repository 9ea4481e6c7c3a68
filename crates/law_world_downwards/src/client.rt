//! OUT legs of the client that the out proxy has finished. This function does nothing: its contract
//! is the law.

ghost use Rattle.std.specs.Prelude.{◌≡◌, ◌<◌, ℕ};
ghost use Rattle.rh_inproxy.specs.State.{InProxy};
ghost use Rattle.rh_outproxy.specs.OutProxy.{OutProxy};
ghost use Rattle.rh_client.specs.declared.state.ClientRole.{ClientRole};
ghost use Rattle.rh_server.specs.States.{Server};
ghost use Rattle.rh_shell.specs.declared.course.Course.TheVariants.{Going};
ghost use Rattle.rh_shell.specs.Shells.{ended};
ghost use Rattle.rh_client.specs.Client as client;
ghost use Rattle.rh_nodes.specs.World.{World};
ghost use Rattle.law_node_history.specs.Histories.{all_noted, nothing};
ghost use Rattle.law_node_begins.specs.ProxiesBegin.Pipes.{co};
ghost use Rattle.law_node_traces.specs.Traced.Ours.{deeds, rules};
ghost use Rattle.law_node_marks.specs.Losing.{DrewAll};
ghost use Rattle.law_world_order.specs.FirstTexts.{IsPort};
ghost use Rattle.law_world_order.specs.Flows.{numbers_of};
ghost use Rattle.law_world_order.specs.Premises.{InNewWorlds};
ghost use Rattle.law_world_ways.specs.EndsInTime.InTime.{EndsInTime};
ghost use Rattle.law_world_ways.specs.OnPaths.Ways.{client_node};
ghost use Rattle.law_world_ways.specs.ExactPaths.GoingOn.{AllGoOn};
ghost use Rattle.law_world_downwards.specs.Over.{IsOverDownwards, IsServerDoneLast};

use crate::marking::a_node_marks_only_what_was_lost;
use crate::out_proxy::an_out_proxy_is_over_behind_its_mark_while_the_server_works;
use law_node_lasting::an_out_proxy_handed_over_where_it_put_its_mark;
use law_node_marks::a_node_goes_on_where_it_may_lose_a_leg;
use law_node_traces::{
    a_proxy_that_was_let_go_has_no_leg_up, a_recording_of_roles_is_known,
    legs_of_roles_come_up_once,
};
use law_role_marks::a_client_leaves_what_was_handed_over;
use law_world_ways::{a_leg_of_use_is_kept, nothing_on_its_way_is_lost, what_comes_is_read};
use rh_client::ClientRole;
use rh_inproxy::InProxyRole;
use rh_outproxy::OutProxyRole;
use rh_server::ServerRole;

/// In each world of new roles that lines lead to by changes that end a leg only where one of its
/// ends is over, while all nodes go on: where a co leg that is up for both of its ends, of which
/// neither was told that it is lost, ends since the out proxy has finished it and all that was put
/// there came, the client goes on. For the out proxy put OUT_R1/A10, or the server's work is done:
/// it is asked that then the client's is, and that the client drew all that it put on the leg,
/// where it may have begun OUT_R2/C1.
pub fn a_client_goes_on_where_its_out_proxy_is_over<K>()
    ensures { InNewWorlds K (λ m w ours.
        IsPort ours.config.port → (v : World K ClientRole Server InProxy OutProxy)
        (ends : EndsInTime rules m deeds w v)
        → (let h = all_noted rules m deeds w nothing ends.lines.leads.changes in
        let numbers = numbers_of ours in AllGoOn numbers h → IsServerDoneLast numbers h
        → (n : ℕ) → 0 < n → IsOverDownwards rules v h (co n)
        → DrewAll (client_node numbers h) (co n)
        → (ended client.rules (client_node numbers h) (co n)).0.course ≡ Going)) }
{
    an_out_proxy_is_over_behind_its_mark_while_the_server_works::<K>();
    a_node_marks_only_what_was_lost::<OutProxyRole>();
    a_leg_of_use_is_kept();
    a_recording_of_roles_is_known::<K>();
    legs_of_roles_come_up_once::<K>();
    a_proxy_that_was_let_go_has_no_leg_up::<K, ClientRole, ServerRole, InProxyRole, OutProxyRole>();
    nothing_on_its_way_is_lost::<K>();
    what_comes_is_read::<K>();
    an_out_proxy_handed_over_where_it_put_its_mark();
    a_client_leaves_what_was_handed_over();
    a_node_goes_on_where_it_may_lose_a_leg::<ClientRole>();
}
