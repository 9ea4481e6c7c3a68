//! What a report tells where a client is closed with `HttpRefused`. This function does nothing: its
//! contract is the law.

ghost use Rattle.std.specs.Prelude.{◌≡◌, ◌++◌, ◌∷◌, List, [], ℕ};
ghost use Rattle.rh_http.specs.declared.lengths.TheConstants.{SERVICE_UNAVAILABLE};
ghost use Rattle.rh_line.specs.declared.cause.Cause.TheVariants.{HttpRefused};
ghost use Rattle.rh_line.specs.declared.leg.LegKind.TheVariants.{ClientIn, ClientOut};
ghost use Rattle.rh_line.specs.declared.leg.LegKind.TheVariants.{InServer, OutServer};
ghost use Rattle.rh_record.specs.declared.answer.Answer.TheVariants.{NodeClosed};
ghost use Rattle.rh_record.specs.declared.answer.Who.{Who};
ghost use Rattle.rh_record.specs.declared.line.Line.{Line};
ghost use Rattle.rh_nodes.specs.Settling.{leg_at};
ghost use Rattle.law_node_history.specs.Closes.{IsOneOf};
ghost use Rattle.rh_world.specs.declared.any_world.AnyWorld.TheVariants.{Before};
ghost use Rattle.rh_world.specs.Any.{after, step};
ghost use Rattle.law_world_honest.specs.Refusals.Reported.{ReportsBreak};

use crate::refused::recordings::a_refused_client_lost_its_server;
use law_node_history::a_node_closes_once;
use law_node_traces::legs_of_roles_come_up_once;
use law_world_reports::{only_a_client_of_a_recording_is_refused, what_a_line_tells_shows};
use rh_client::ClientRole;
use rh_inproxy::InProxyRole;
use rh_outproxy::OutProxyRole;
use rh_server::ServerRole;
use rh_world::WorldConfig;

/// In every recording, where a line reports a node as closed with `HttpRefused` of a channel, the
/// status is 503, and that line or one before it reports that the leg to the server that has the
/// channel's number broke.
pub fn a_refused_client_of_a_recording_lost_its_server()
    ensures out_channel { (before : List Line) (line : Line) (node : Who) (n status : ℕ)
        → IsOneOf (NodeClosed node (HttpRefused (leg_at ClientOut n) status))
        (step (after Before before) line).1
        → (status ≡ SERVICE_UNAVAILABLE) × ReportsBreak (before ++ line ∷ []) (leg_at OutServer n) }
    ensures in_channel { (before : List Line) (line : Line) (node : Who) (n status : ℕ)
        → IsOneOf (NodeClosed node (HttpRefused (leg_at ClientIn n) status))
        (step (after Before before) line).1
        → (status ≡ SERVICE_UNAVAILABLE) × ReportsBreak (before ++ line ∷ []) (leg_at InServer n) }
{
    only_a_client_of_a_recording_is_refused();
    what_a_line_tells_shows::<WorldConfig, ClientRole, ServerRole, InProxyRole, OutProxyRole>();
    a_node_closes_once::<WorldConfig, ClientRole, ServerRole, InProxyRole, OutProxyRole>();
    a_refused_client_lost_its_server::<WorldConfig>();
    legs_of_roles_come_up_once::<WorldConfig>();
}
