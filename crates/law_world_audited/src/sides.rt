//! What an audit joins. This function calls the laws that it stands on: its contract is the law.

ghost use Rattle.std.specs.Prelude.{List, ◌∷◌, true};
ghost use Rattle.rh_record.specs.declared.line.Line.{Line};
ghost use Rattle.rh_record.specs.declared.line.Line.TheVariants.{First};
ghost use Rattle.law_world_audited.specs.Sides.{TellsSidesOf};

use crate::legs_in_chains::the_chains_of_a_recording_have_all_legs;
use crate::what_moved::a_capture_has_what_moved;
use law_audit::frames_are_items;

/// What an audit of the capture of a recording of roles joins of each kind of legs is, leg by leg in
/// the order of their numbers, what order sees in the first messages that were put there: their RPC
/// PDUs, and whether the handover mark is among them.
pub fn what_is_joined_was_put_on_legs()
    ensures { (behind : List Line) → TellsSidesOf (First true ∷ behind) }
{
    frames_are_items();
    a_capture_has_what_moved();
    the_chains_of_a_recording_have_all_legs();
}
