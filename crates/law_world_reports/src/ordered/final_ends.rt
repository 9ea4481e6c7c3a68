//! A clean end is final. These functions do nothing: their contracts are the laws.

ghost use Rattle.std.specs.Prelude.{◌≡◌, List, [], true, ℕ};
ghost use Rattle.rh_http.specs.declared.config.ClientConfig.{ClientConfig};
ghost use Rattle.rh_record.specs.declared.line.Line.{Line};
ghost use Rattle.rh_inproxy.specs.State.{InProxy};
ghost use Rattle.rh_outproxy.specs.OutProxy.{OutProxy};
ghost use Rattle.rh_client.specs.declared.state.ClientRole.{ClientRole};
ghost use Rattle.rh_client.specs.Client as client;
ghost use Rattle.rh_server.specs.States.{Server, is_closing};
ghost use Rattle.rh_server.specs.Servers as server;
ghost use Rattle.rh_nodes.specs.Opening.{Makers};
ghost use Rattle.rh_nodes.specs.Steps.{told};
ghost use Rattle.rh_nodes.specs.World.{World};
ghost use Rattle.law_moves.specs.Moving.{EndEvent, IsClosed, after_end_events};
ghost use Rattle.law_node_history.specs.Changes.{of_line};
ghost use Rattle.law_node_history.specs.Closes.{IsOneOf};
ghost use Rattle.law_node_history.specs.Histories.{IsNew};
ghost use Rattle.law_node_traces.specs.Traced.Ours.{AreOurs, deeds, rules};
ghost use Rattle.rh_world.specs.Any.{run};
ghost use Rattle.law_world_reports.specs.Ordering.Final.{EndsForGood};
ghost use Rattle.law_world_reports.specs.Ordering.Premises.{KeepsOrder};
ghost use Rattle.law_world_reports.specs.Ordering.Recordings.{OffersBehindFirst, RolesKeepOrder};

use crate::ordered::ends::{
    a_client_gives_until_it_is_told_to_close, a_server_gives_until_it_is_told_to_close,
};
use crate::told::{
    a_report_tells_what_was_given_and_taken, nothing_is_told_of_a_closed_end,
    the_history_of_an_end_goes_on, what_passes_no_more_is_not_told,
};
use law_moves::{ends_move_by_their_rules, roles_move_by_their_rules};
use law_node_history::each_node_is_what_its_history_made;
use rh_client::ClientRole;
use rh_inproxy::InProxyRole;
use rh_outproxy::OutProxyRole;
use rh_server::ServerRole;
use rh_world::WorldConfig;

/// A client gives no more only where it was told so.
pub fn a_client_that_closes_was_told()
    ensures { (config : ClientConfig) (events : List EndEvent)
        → (after_end_events client.rules client.acts (client.first_client config)
        events).role.is_closing ≡ true
        → IsOneOf IsClosed events }
{
    ends_move_by_their_rules::<ClientRole>();
    roles_move_by_their_rules::<ClientRole>();
}

/// So it is with a server.
pub fn a_server_that_closes_was_told()
    ensures { (window : ℕ) (events : List EndEvent)
        → is_closing (after_end_events server.rules server.acts (server.new_server window)
        events).role.giving ≡ true
        → IsOneOf IsClosed events }
{
    ends_move_by_their_rules::<ServerRole>();
    roles_move_by_their_rules::<ServerRole>();
}

/// In the report of every run of the real roles, where an end tells that no more comes, the other
/// end was told before to give no more, and gives nothing behind; where a take is answered Ended
/// only if the other end was told so.
pub fn a_report_ends_for_good<K>()
    ensures { (m : Makers K InProxy OutProxy) (lines : List Line)
        (w : World K ClientRole Server InProxy OutProxy) → AreOurs m w.company w.cast → IsNew w
        → w.closed ≡ [] → KeepsOrder of_line m w → EndsForGood lines (told rules m deeds w lines) }
{
    a_client_gives_until_it_is_told_to_close();
    a_server_gives_until_it_is_told_to_close();
    a_client_that_closes_was_told();
    a_server_that_closes_was_told();
    each_node_is_what_its_history_made::<K, ClientRole, ServerRole, InProxyRole, OutProxyRole>();
    a_report_tells_what_was_given_and_taken::<
        K,
        ClientRole,
        ServerRole,
        InProxyRole,
        OutProxyRole,
    >();
    what_passes_no_more_is_not_told::<K, ClientRole, ServerRole, InProxyRole, OutProxyRole>();
    the_history_of_an_end_goes_on::<K, ClientRole, ServerRole, InProxyRole, OutProxyRole>();
    nothing_is_told_of_a_closed_end::<K, ClientRole, ServerRole, InProxyRole, OutProxyRole>();
}

/// So it is in the report of every recording; that of a direct one tells of no end.
pub fn a_recording_ends_for_good()
    ensures { RolesKeepOrder → (lines : List Line) → OffersBehindFirst lines
        → EndsForGood lines (run lines) }
{
    a_report_ends_for_good::<WorldConfig>();
}
