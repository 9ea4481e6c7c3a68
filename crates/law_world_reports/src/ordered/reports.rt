//! The order law of the report of a run. This function does nothing: its contract is the law.

ghost use Rattle.std.specs.Prelude.{◌≡◌, List, []};
ghost use Rattle.rh_record.specs.declared.line.Line.{Line};
ghost use Rattle.rh_record.specs.Events.Order.{IsOrdered};
ghost use Rattle.rh_inproxy.specs.State.{InProxy};
ghost use Rattle.rh_outproxy.specs.OutProxy.{OutProxy};
ghost use Rattle.rh_client.specs.declared.state.ClientRole.{ClientRole};
ghost use Rattle.rh_server.specs.States.{Server};
ghost use Rattle.rh_nodes.specs.Opening.{Makers};
ghost use Rattle.rh_nodes.specs.Steps.{told};
ghost use Rattle.rh_nodes.specs.World.{World};
ghost use Rattle.law_node_history.specs.Changes.{of_line};
ghost use Rattle.law_node_history.specs.Histories.{IsNew};
ghost use Rattle.law_node_traces.specs.Traced.Ours.{AreOurs, deeds, rules};
ghost use Rattle.law_world_reports.specs.Ordering.Premises.{KeepsOrder};

use crate::ordered::ends::{
    a_client_gives_until_it_is_told_to_close, a_server_gives_until_it_is_told_to_close,
};
use crate::told::{
    a_report_tells_what_was_given_and_taken, nothing_is_told_of_a_closed_end,
    the_history_of_an_end_goes_on, what_passes_no_more_is_not_told,
};
use law_node_history::each_node_is_what_its_history_made;
use rh_client::ClientRole;
use rh_inproxy::InProxyRole;
use rh_outproxy::OutProxyRole;
use rh_server::ServerRole;

/// The report of every run of the real roles is in order, where at each moment what an end took is
/// a front of what the other gave, and a take is answered Ended only where that is all and the
/// other was told to close.
pub fn a_report_is_ordered<K>()
    ensures { (m : Makers K InProxy OutProxy) (lines : List Line)
        (w : World K ClientRole Server InProxy OutProxy) → AreOurs m w.company w.cast → IsNew w
        → w.closed ≡ [] → KeepsOrder of_line m w → IsOrdered lines (told rules m deeds w lines) }
{
    a_client_gives_until_it_is_told_to_close();
    a_server_gives_until_it_is_told_to_close();
    each_node_is_what_its_history_made::<K, ClientRole, ServerRole, InProxyRole, OutProxyRole>();
    a_report_tells_what_was_given_and_taken::<
        K,
        ClientRole,
        ServerRole,
        InProxyRole,
        OutProxyRole,
    >();
    what_passes_no_more_is_not_told::<K, ClientRole, ServerRole, InProxyRole, OutProxyRole>();
    the_history_of_an_end_goes_on::<K, ClientRole, ServerRole, InProxyRole, OutProxyRole>();
    nothing_is_told_of_a_closed_end::<K, ClientRole, ServerRole, InProxyRole, OutProxyRole>();
}
