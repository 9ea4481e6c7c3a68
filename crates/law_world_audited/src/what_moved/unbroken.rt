//! The capture of a recording of roles has no fault in its streams. This function does nothing: its
//! contract is the law.

ghost use Rattle.std.specs.Prelude.{◌≡◌, List, ◌∷◌, [], None, ℕ, true};
ghost use Rattle.std.specs.List.{flat_map};
ghost use Rattle.rh_sig.specs.declared.name.Pipe.{Pipe};
ghost use Rattle.rh_record.specs.declared.line.Line.{Line};
ghost use Rattle.rh_record.specs.declared.line.Line.TheVariants.{First};
ghost use Rattle.rh_audit.specs.Audits.{broken_in};
ghost use Rattle.rh_audit.specs.Captures.{of_tag};
ghost use Rattle.rh_audit.specs.Chains.{stream_in};
ghost use Rattle.rh_capture.specs.Captured.{captured};
ghost use Rattle.rh_world.specs.Any.{run};

use crate::what_moved::streams::what_moved_is_a_stream;
use law_audit::no_bytes_are_no_frames;

/// In the capture of each recording of roles no stream is broken, whatever its lines cut, break and
/// replace: so an audit tells no broken stream of any of its tags.
pub fn no_stream_of_a_recording_is_broken()
    ensures stream { (behind : List Line) (tag : ℕ) (pipe : Pipe)
        → (stream_in pipe (of_tag tag (captured (run (First true ∷ behind))))).broken ≡ None }
    ensures faults { (behind : List Line) (tags : List ℕ)
        → flat_map (λ tag. broken_in tag (of_tag tag (captured (run (First true ∷ behind))))) tags
        ≡ [] }
{
    what_moved_is_a_stream();
    no_bytes_are_no_frames();
}
