//! Lines end legs. This function does nothing: its contract is the law.

ghost use Rattle.std.specs.Prelude.{◌≡◌, true};
ghost use Rattle.rh_record.specs.declared.line.Line.{Line};
ghost use Rattle.rh_wires.specs.Legs as legs;
ghost use Rattle.rh_company.specs.Company.{Rulebook};
ghost use Rattle.rh_nodes.specs.Giving.{Deeds};
ghost use Rattle.rh_nodes.specs.Opening.{Makers};
ghost use Rattle.rh_nodes.specs.Steps.{step, step_line};
ghost use Rattle.rh_nodes.specs.World.{World};
ghost use Rattle.law_world_ways.specs.EndsInTime.Both.{AreUpAtBoth};
ghost use Rattle.law_world_ways.specs.EndsInTime.InTime.{EndsInTime};
ghost use Rattle.law_world_ways.specs.EndsInTime.Losses.{LosesInTime, loses_no_leg};

/// Where each leg is up for both of its ends or for neither, each line ends a leg only where it is
/// over, unless it is a `break` or `end` line of another leg that is answered ok: nothing is asked
/// of any line but these two. So it is of the whole line, and of what it does before it reports the
/// nodes that it closed. A world with no legs has them so, and each line keeps them so. Lines that
/// end legs in time do so behind each other as well.
pub fn lines_end_legs_in_time<K, C, S, I, O>()
    ensures line { (r : Rulebook C S I O) (m : Makers K I O) (d : Deeds C S) (line : Line)
        (w : World K C S I O) → AreUpAtBoth w → LosesInTime r w line
        → EndsInTime r m d w (step r m d line w).0 }
    ensures unreported { (r : Rulebook C S I O) (m : Makers K I O) (d : Deeds C S) (line : Line)
        (w : World K C S I O) → AreUpAtBoth w → LosesInTime r w line
        → EndsInTime r m d w (step_line r m d line w).0 }
    ensures first { (w : World K C S I O) → w.legs ≡ legs.none → AreUpAtBoth w }
    ensures both { (r : Rulebook C S I O) (m : Makers K I O) (d : Deeds C S) (line : Line)
        (w : World K C S I O) → AreUpAtBoth w → AreUpAtBoth (step r m d line w).0 }
    ensures both_unreported { (r : Rulebook C S I O) (m : Makers K I O) (d : Deeds C S)
        (line : Line) (w : World K C S I O) → AreUpAtBoth w
        → AreUpAtBoth (step_line r m d line w).0 }
    ensures others { (r : Rulebook C S I O) (w : World K C S I O) (line : Line)
        → loses_no_leg line ≡ true → LosesInTime r w line }
    ensures none { (r : Rulebook C S I O) (m : Makers K I O) (d : Deeds C S)
        (w : World K C S I O) → EndsInTime r m d w w }
    ensures behind { (r : Rulebook C S I O) (m : Makers K I O) (d : Deeds C S)
        (w v u : World K C S I O) → EndsInTime r m d w v → EndsInTime r m d v u
        → EndsInTime r m d w u }
{}
