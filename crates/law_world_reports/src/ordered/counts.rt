//! What the last lines of a report count. These functions do nothing: their contracts are the laws.

ghost use Rattle.std.specs.Prelude.{◌≡◌, List, ◌∷◌, true};
ghost use Rattle.rh_record.specs.declared.line.Line.{Line};
ghost use Rattle.rh_record.specs.declared.line.Line.TheVariants.{First};
ghost use Rattle.rh_wires.specs.Counts.{none};
ghost use Rattle.rh_company.specs.Company.{Rulebook};
ghost use Rattle.rh_nodes.specs.Giving.{Deeds};
ghost use Rattle.rh_nodes.specs.Opening.{Makers};
ghost use Rattle.rh_nodes.specs.Steps.{told};
ghost use Rattle.rh_nodes.specs.World.{World};
ghost use Rattle.rh_world.specs.Any.{run};
ghost use Rattle.law_world_reports.specs.Ordering.Counted.{CountsCapped};

use rh_client::ClientRole;
use rh_inproxy::InProxyRole;
use rh_outproxy::OutProxyRole;
use rh_server::ServerRole;
use rh_world::WorldConfig;

/// The report of every run that began with no PDUs counts those that it tells of.
pub fn a_report_counts<K, C, S, I, O>()
    ensures { (r : Rulebook C S I O) (m : Makers K I O) (d : Deeds C S) (lines : List Line)
        (w : World K C S I O) → w.up ≡ none → w.down ≡ none
        → CountsCapped lines (told r m d w lines) }
{}

/// So does that of every recording of roles.
pub fn a_recording_counts()
    ensures { (behind : List Line)
        → CountsCapped (First true ∷ behind) (run (First true ∷ behind)) }
{
    a_report_counts::<WorldConfig, ClientRole, ServerRole, InProxyRole, OutProxyRole>();
}
