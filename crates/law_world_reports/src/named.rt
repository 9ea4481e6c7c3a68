//! What a report tells of an end behind the line that says that it closed. These functions do
//! nothing: their contracts are the laws.

ghost use Rattle.std.specs.Prelude.{◌≡◌, List, []};
ghost use Rattle.rh_record.specs.declared.line.Line.{Line};
ghost use Rattle.rh_company.specs.Company.{Rulebook};
ghost use Rattle.rh_nodes.specs.Giving.{Deeds};
ghost use Rattle.rh_nodes.specs.Opening.{Makers};
ghost use Rattle.rh_nodes.specs.Steps.{told};
ghost use Rattle.rh_nodes.specs.World.{World};
ghost use Rattle.rh_world.specs.Any.{run};
ghost use Rattle.law_world_reports.specs.Naming.{NamesIt};

use law_node_history::{
    a_closed_end_tells_its_cause, a_line_is_changes, a_node_closes_once, what_carries_is_quiet,
    what_is_to_be_reported_has_closed,
};
use rh_client::ClientRole;
use rh_inproxy::InProxyRole;
use rh_outproxy::OutProxyRole;
use rh_server::ServerRole;
use rh_world::WorldConfig;

/// Behind the answer that reports an end as closed, each answer of that end names the same cause:
/// that of a give, which is refused, that of a take, and the end's last line. So a settling, which
/// reports of its takes only PDUs and that no more comes, reports none of that end.
pub fn a_closed_end_names_its_cause<K, C, S, I, O>()
    ensures { (r : Rulebook C S I O) (m : Makers K I O) (d : Deeds C S) (lines : List Line)
        (w : World K C S I O) → w.closed ≡ [] → NamesIt (told r m d w lines) }
{
    a_closed_end_tells_its_cause::<K, C, S, I, O>();
    a_line_is_changes::<K, C, S, I, O>();
    a_node_closes_once::<K, C, S, I, O>();
    what_carries_is_quiet::<K, C, S, I, O>();
    what_is_to_be_reported_has_closed::<K, C, S, I, O>();
}

/// So it is in the report of every recording.
pub fn an_end_of_a_recording_names_its_cause()
    ensures { (lines : List Line) → NamesIt (run lines) }
{
    a_closed_end_names_its_cause::<
        WorldConfig,
        ClientRole,
        ServerRole,
        InProxyRole,
        OutProxyRole,
    >();
}
