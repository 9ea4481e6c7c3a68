//! How the answers of a report stand beside the lines of its recording. These functions do nothing:
//! their contracts are the laws.

ghost use Rattle.std.specs.Prelude.{List, ◌∷◌, true};
ghost use Rattle.rh_record.specs.declared.line.Line.{Line};
ghost use Rattle.rh_record.specs.declared.line.Line.TheVariants.{First};
ghost use Rattle.rh_world.specs.declared.any_world.AnyWorld.TheVariants.{Before};
ghost use Rattle.rh_world.specs.Any.{run};
ghost use Rattle.law_world_reports.specs.Ordering.LastLines.{EndsWithLast};
ghost use Rattle.law_world_reports.specs.Ordering.Recordings.{OffersBehindFirst};
ghost use Rattle.law_world_reports.specs.Ordering.Sides.{NamesSides};

/// In the report of every recording each answer to a give names the end of its line, the first that
/// of the first, and there are as many.
pub fn a_recording_names_the_sides_of_its_gives()
    ensures { (lines : List Line) → OffersBehindFirst lines → NamesSides lines (run lines) }
{}

/// The report of every recording of roles is what its lines are answered, and then the two counts
/// of that and what the client and the server are behind the lines; nothing stands behind these.
pub fn a_recording_ends_with_its_last_lines()
    ensures { (behind : List Line) → EndsWithLast Before (First true ∷ behind) }
{}
