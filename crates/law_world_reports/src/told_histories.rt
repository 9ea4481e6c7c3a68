//! What the answers of a recording tell of its history. This function does nothing: its contract is
//! the law.

ghost use Rattle.std.specs.Prelude.{List, ◌∷◌, true};
ghost use Rattle.rh_record.specs.declared.line.Line.{Line};
ghost use Rattle.rh_record.specs.declared.line.Line.TheVariants.{First};
ghost use Rattle.law_world_reports.specs.ToldHistories.{TellsHistory};

/// The lines of a recording of roles make changes that lead to the world behind them, and in that
/// history each end gave and took just the PDUs that the answers so far tell, in that order.
pub fn a_recording_tells_its_history()
    ensures { (behind : List Line) → TellsHistory (First true ∷ behind) }
{}
