//! What stands in the capture of a report. This function does nothing: its contract is the law.

ghost use Rattle.std.specs.Prelude.{◌≡◌, List, Some, true};
ghost use Rattle.std.specs.List.{AllByRecursion};
ghost use Rattle.rh_text.specs.declared.ends.Dir.{Dir};
ghost use Rattle.rh_sig.specs.declared.name.Pipe.{Pipe};
ghost use Rattle.rh_line.specs.declared.leg.Leg.{Leg};
ghost use Rattle.rh_record.specs.declared.answer.Answer.{Answer};
ghost use Rattle.rh_audit.specs.Captures.{IsOfKind, bytes_on, of_tag};
ghost use Rattle.rh_capture.specs.Captured.{captured};
ghost use Rattle.rh_capture.specs.Legs.{tag_of};
ghost use Rattle.rh_capture.specs.Moves.{pipe_of};
ghost use Rattle.law_world_audited.specs.Moving.Moved.{moved_on};
ghost use Rattle.law_world_audited.specs.Moving.Tagged.{IsLineOf, is_met, legs_met};

/// In the capture of a report each leg that has lines has a tag of its own, and all lines of that
/// tag are on pipes of its kind. What they carry on a pipe is what the report tells moved on the
/// leg in its direction, all of it and in that order.
pub fn a_capture_has_what_moved()
    ensures bytes { (report : List Answer) (leg : Leg) (dir : Dir) (pipe : Pipe)
        → pipe_of leg.kind dir ≡ Some pipe
        → bytes_on (tag_of (legs_met report) leg) pipe (captured report)
        ≡ moved_on leg dir report }
    ensures lines { (report : List Answer)
        → AllByRecursion (IsLineOf (legs_met report)) (captured report) }
    ensures kinds { (report : List Answer) (leg : Leg) → is_met (legs_met report) leg ≡ true
        → AllByRecursion (IsOfKind leg.kind)
        (of_tag (tag_of (legs_met report) leg) (captured report)) }
    ensures own { (legs : List Leg) (leg other : Leg) → is_met legs leg ≡ true
        → tag_of legs leg ≡ tag_of legs other → leg ≡ other }
{}
