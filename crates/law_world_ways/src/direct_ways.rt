//! What is on its way in a direct recording. This function does nothing: its contract is the law.

ghost use Rattle.std.specs.Prelude.{List, ◌∷◌, false};
ghost use Rattle.rh_record.specs.declared.line.Line.{Line};
ghost use Rattle.rh_record.specs.declared.line.Line.TheVariants.{First};
ghost use Rattle.law_world_ways.specs.DirectWays.{KeepsDirectly};

/// Behind any lines of a direct recording, what an end gave, as the answers so far tell it, is
/// exactly what the other end took, what is held there and was not taken, and what is fed, in
/// flight, begun or queued.
pub fn direct_recordings_keep_all()
    ensures { (behind : List Line) → KeepsDirectly (First false ∷ behind) }
{}
