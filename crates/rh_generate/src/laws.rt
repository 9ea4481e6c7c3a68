//! Laws of generated recordings: these functions do nothing, and their contracts are the laws.

ghost use Rattle.std.specs.Prelude.{◌≡◌, ℕ, ◌++◌};
ghost use Rattle.rh_world.specs.declared.any_world.AnyWorld.TheVariants.{Before};
ghost use Rattle.rh_world.specs.Any.{answers, run};
ghost use Rattle.rh_made.specs.Making.{lines};
ghost use Rattle.rh_generate.specs.Summaries.{summary};
ghost use Rattle.rh_made.specs.Sums.{moved, rounds};

/// The report of the recording is what its lines were answered, and then the last lines of the
/// summary, whose sums are those of that report.
pub fn a_summary_is_of_the_report()
    ensures report { (n : ℕ) → run (lines n) ≡ answers Before (lines n) ++ (summary n).last }
    ensures moved { (n : ℕ) → moved (run (lines n)) ≡ (summary n).moved }
    ensures rounds { (n : ℕ) → rounds (run (lines n)) ≡ (summary n).rounds }
{}
