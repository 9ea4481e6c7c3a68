//! An audit of a recording of roles tells no fault. This function calls the laws that it stands on:
//! its contract is the law.

ghost use Rattle.std.specs.Prelude.{◌≡◌, List, ◌∷◌, [], ℕ, true};
ghost use Rattle.rh_record.specs.declared.line.Line.{Line};
ghost use Rattle.rh_record.specs.declared.line.Line.TheVariants.{First};
ghost use Rattle.rh_audit.specs.Audits.{AreTags, faults};
ghost use Rattle.rh_capture.specs.Captured.{captured};
ghost use Rattle.rh_world.specs.Any.{run};

use crate::legs_in_chains::the_chains_of_a_recording_have_all_legs;
use crate::what_moved::no_stream_of_a_recording_is_broken;

/// For each recording of roles, whatever its lines cut, break and replace: the audit of its capture
/// tells no fault. No stream is broken, and each leg stands in the chain of its kind.
pub fn an_audit_of_a_recording_tells_no_fault()
    ensures { (behind : List Line) (tags : List ℕ)
        → AreTags (captured (run (First true ∷ behind))) tags
        → faults (captured (run (First true ∷ behind))) tags ≡ [] }
{
    no_stream_of_a_recording_is_broken();
    the_chains_of_a_recording_have_all_legs();
}
