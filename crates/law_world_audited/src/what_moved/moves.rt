//! What a recording of roles tells moved. This function does nothing: its contract is the law.

ghost use Rattle.std.specs.Prelude.{List, ◌∷◌, true};
ghost use Rattle.rh_record.specs.declared.line.Line.{Line};
ghost use Rattle.rh_record.specs.declared.line.Line.TheVariants.{First};
ghost use Rattle.law_world_audited.specs.Moving.ToldMoves.{TellsMovesOf};

use law_node_traces::a_recording_of_roles_is_known;
use rh_world::WorldConfig;

/// What the answers of a recording of roles tell moved on a leg in a direction is what the node
/// that reads there was fed, all of it and in that order, behind any lines.
pub fn a_recording_tells_what_moved()
    ensures { (behind : List Line) → TellsMovesOf (First true ∷ behind) }
{
    a_recording_of_roles_is_known::<WorldConfig>();
}
