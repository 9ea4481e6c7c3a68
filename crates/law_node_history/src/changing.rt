//! A world of roles changes by small changes. These functions do nothing: their contracts are the
//! laws.

ghost use Rattle.std.specs.Prelude.{List};
ghost use Rattle.rh_record.specs.declared.line.Line.{Line};
ghost use Rattle.rh_company.specs.Company.{Rulebook};
ghost use Rattle.rh_nodes.specs.declared.half.Half.{Half};
ghost use Rattle.rh_nodes.specs.Giving.{Deeds};
ghost use Rattle.rh_nodes.specs.Halves.{half};
ghost use Rattle.rh_nodes.specs.Opening.{Makers};
ghost use Rattle.rh_nodes.specs.Settling.{carry_all, end_all, open_all, round};
ghost use Rattle.rh_nodes.specs.Steps.{leg_answer, reported, step, step_line};
ghost use Rattle.rh_nodes.specs.World.{World};
ghost use Rattle.law_node_history.specs.Changes.{ByLines, GoesQuietly, Leads, Quietly, Turn, Works, after_turns};

/// Each line of a recording is a list of small changes, each allowed where it is made: a node is
/// told something, bytes are drawn into flight or fed, an end of a leg goes up or down, a proxy is
/// made, an end acts, or something is noted. So is a line before it reports the nodes that it
/// closed, and each round of settling.
pub fn a_line_is_changes<K, C, S, I, O>()
    ensures line { (r : Rulebook C S I O) (m : Makers K I O) (d : Deeds C S) (line : Line)
        (w : World K C S I O) → Leads r m d w (step r m d line w).0 }
    ensures unreported { (r : Rulebook C S I O) (m : Makers K I O) (d : Deeds C S) (line : Line)
        (w : World K C S I O) → Works r m d w (step_line r m d line w).0 }
    ensures round { (r : Rulebook C S I O) (m : Makers K I O) (d : Deeds C S)
        (w : World K C S I O) → Works r m d w (round r m d w).0 }
{}

/// What carries bytes, opens, ends and breaks legs and tells the time makes quiet changes alone: no
/// end acts, and nothing is reported; and its answers tell of no act, and of no node that closed.
/// So it is with each line but those at the ends and the one that settles, and with each part of a
/// round of settling but the one in which the ends take.
pub fn what_carries_is_quiet<K, C, S, I, O>()
    ensures opens { (r : Rulebook C S I O) (m : Makers K I O) (d : Deeds C S)
        (w : World K C S I O) → GoesQuietly r m d w (open_all r m w) }
    ensures carries { (r : Rulebook C S I O) (m : Makers K I O) (d : Deeds C S)
        (w : World K C S I O) → GoesQuietly r m d w (carry_all r w) }
    ensures ends { (r : Rulebook C S I O) (m : Makers K I O) (d : Deeds C S)
        (w : World K C S I O) → GoesQuietly r m d w (end_all r w) }
    ensures line { (r : Rulebook C S I O) (m : Makers K I O) (d : Deeds C S) (line : Line)
        (w : World K C S I O) → GoesQuietly r m d w (reported (leg_answer r m w line)) }
{}

/// Lines make changes of lines: they have each leg up with a cookie of 16 bytes, an IN leg of the
/// client with a proxy that reads it, and one of the server to a proxy that is there. So it is with
/// each line before it reports the nodes that it closed, and with each round of settling; and all
/// work is of that kind, so what is quiet is.
pub fn lines_make_changes_of_lines<K, C, S, I, O>()
    ensures line { (r : Rulebook C S I O) (m : Makers K I O) (d : Deeds C S) (line : Line)
        (w : World K C S I O) → ByLines r m d w (step r m d line w).0 }
    ensures unreported { (r : Rulebook C S I O) (m : Makers K I O) (d : Deeds C S) (line : Line)
        (w : World K C S I O) → ByLines r m d w (step_line r m d line w).0 }
    ensures round { (r : Rulebook C S I O) (m : Makers K I O) (d : Deeds C S)
        (w : World K C S I O) → ByLines r m d w (round r m d w).0 }
    ensures work { (r : Rulebook C S I O) (m : Makers K I O) (d : Deeds C S)
        (w v : World K C S I O) → Works r m d w v → ByLines r m d w v }
    ensures quiet { (r : Rulebook C S I O) (m : Makers K I O) (d : Deeds C S)
        (w v : World K C S I O) → Quietly r m d w v → ByLines r m d w v }
{}

/// So is each half step, where one node alone is told something.
pub fn a_half_step_is_changes<K, C, S, I, O>()
    ensures { (r : Rulebook C S I O) (m : Makers K I O) (d : Deeds C S) (one : Half)
        (w : World K C S I O) → Leads r m d w (half r m w one).0 }
{}

/// And so are lines and half steps in any order.
pub fn lines_are_changes<K, C, S, I, O>()
    ensures { (r : Rulebook C S I O) (m : Makers K I O) (d : Deeds C S) (turns : List Turn)
        (w : World K C S I O) → Leads r m d w (after_turns r m d w turns) }
{}
