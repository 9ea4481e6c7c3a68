//! Each close that a recording reports. These functions do nothing: their contracts are the laws.

ghost use Rattle.std.specs.Prelude.{◌≤◌, List, ℕ};
ghost use Rattle.rh_line.specs.declared.cause.Cause.{Cause};
ghost use Rattle.rh_line.specs.declared.cause.Cause.TheVariants.{HttpRefused, Silent};
ghost use Rattle.rh_line.specs.declared.leg.Leg.{Leg};
ghost use Rattle.rh_record.specs.declared.answer.Answer.TheVariants.{NodeClosed};
ghost use Rattle.rh_record.specs.declared.answer.Who.{Who};
ghost use Rattle.rh_record.specs.declared.line.Line.{Line};
ghost use Rattle.law_node_history.specs.Closes.{IsOneOf, closings_of};
ghost use Rattle.rh_world.specs.declared.any_world.AnyWorld.TheVariants.{Before};
ghost use Rattle.rh_world.specs.Any.{after, prepared, run, step};
ghost use Rattle.law_world_reports.specs.Closed.Recordings.{IsLicensedIn, IsRefusedIn};
ghost use Rattle.law_world_reports.specs.Closed.Reports.{ShowsIn};
ghost use Rattle.law_world_reports.specs.Closed.Silences.{IsSilentIn};

use crate::closes::licences::each_close_shows;
use law_node_causes::{
    a_node_falls_silent_since_it_was_heard, only_a_client_closes_with_http_refused,
};
use rh_client::ClientRole;
use rh_inproxy::InProxyRole;
use rh_outproxy::OutProxyRole;
use rh_server::ServerRole;
use rh_world::WorldConfig;

/// In every recording each node that a line reports as closed was closed by something that the
/// line told it, which shows in the answers of that line, and with a cause that its role allows of
/// that. Only a recording of roles reports such a node.
pub fn each_close_of_a_recording_shows()
    ensures { (before : List Line) (line : Line) (node : Who) (why : Cause)
        → IsOneOf (NodeClosed node why) (step (after Before before) line).1
        → IsLicensedIn (prepared (after Before before) line) line node why }
{
    each_close_shows::<WorldConfig, ClientRole, ServerRole, InProxyRole, OutProxyRole>();
}

/// So each cause shows in the report: in the answers of the line that reports the close, a broken
/// leg as its break or its end, an ended leg as its end, silence as the moment, and what was amiss
/// in bytes as a move of bytes, on the leg that the cause names unless that is a full one.
pub fn each_cause_of_a_recording_shows()
    ensures { (before : List Line) (line : Line) (node : Who) (why : Cause)
        → IsOneOf (NodeClosed node why) (step (after Before before) line).1
        → ShowsIn (step (after Before before) line).1 why }
{
    each_close_of_a_recording_shows();
}

/// In every recording only the client is reported as closed with `HttpRefused`, and for a response
/// on that leg: bytes that the line moved towards the client there made it whole.
pub fn only_a_client_of_a_recording_is_refused()
    ensures { (before : List Line) (line : Line) (node : Who) (leg : Leg) (status : ℕ)
        → IsOneOf (NodeClosed node (HttpRefused leg status)) (step (after Before before) line).1
        → IsRefusedIn (prepared (after Before before) line) line node leg status }
{
    each_close_of_a_recording_shows();
    only_a_client_closes_with_http_refused();
}

/// In every recording only the client and in proxies are reported as closed with `Silent`, by a
/// line that told the moment which this names, and for what happened at them since the recording
/// began: the client of a co leg, once the timeout that was told for it has passed, and an in proxy
/// of a ci leg before IN_R1/A5 came there, once the timeout of the recording's configuration has;
/// both since the last moment at which bytes were heard there or the leg came up.
pub fn a_node_of_a_recording_falls_silent()
    ensures { (before : List Line) (line : Line) (node : Who) (leg : Leg) (since now : ℕ)
        → IsOneOf (NodeClosed node (Silent leg since now)) (step (after Before before) line).1
        → IsSilentIn (prepared (after Before before) line) line node leg since now }
{
    each_close_of_a_recording_shows();
    a_node_falls_silent_since_it_was_heard();
}

/// Over a whole recording a node is reported as closed once at most.
pub fn a_recording_reports_a_node_closed_once()
    ensures { (lines : List Line) (node : Who) → closings_of node (run lines) ≤ 1 }
{}
