//! Each close is reported. These functions do nothing: their contracts are the laws.

ghost use Rattle.std.specs.Prelude.{List};
ghost use Rattle.rh_record.specs.declared.line.Line.{Line};
ghost use Rattle.rh_world.specs.Any.{run};
ghost use Rattle.law_world_reports.specs.CloseLines.{NamesReported, ReportsCloses};

use law_node_history::{
    a_line_is_changes, what_is_reported_closed_was_closed, what_stands_closed_was_closed,
};
use rh_client::ClientRole;
use rh_inproxy::InProxyRole;
use rh_outproxy::OutProxyRole;
use rh_server::ServerRole;
use rh_world::WorldConfig;

/// Behind any lines of a recording, so behind each line, each node that stands closed was reported
/// as closed with its cause by an answer so far. A proxy that was let go does not stand any more.
pub fn each_close_of_a_recording_is_reported()
    ensures { (lines : List Line) → ReportsCloses lines }
{
    a_line_is_changes::<WorldConfig, ClientRole, ServerRole, InProxyRole, OutProxyRole>();
    what_is_reported_closed_was_closed::<
        WorldConfig,
        ClientRole,
        ServerRole,
        InProxyRole,
        OutProxyRole,
    >();
    what_stands_closed_was_closed::<
        WorldConfig,
        ClientRole,
        ServerRole,
        InProxyRole,
        OutProxyRole,
    >();
}

/// Where an answer of an end names the cause with which it closed, the report told before it that
/// the end closed with that cause: so of a give and of a take that the end refuses, and of its last
/// line.
pub fn an_end_of_a_recording_names_what_was_reported()
    ensures { (lines : List Line) → NamesReported (run lines) }
{
    a_line_is_changes::<WorldConfig, ClientRole, ServerRole, InProxyRole, OutProxyRole>();
    what_is_reported_closed_was_closed::<
        WorldConfig,
        ClientRole,
        ServerRole,
        InProxyRole,
        OutProxyRole,
    >();
    what_stands_closed_was_closed::<
        WorldConfig,
        ClientRole,
        ServerRole,
        InProxyRole,
        OutProxyRole,
    >();
}
