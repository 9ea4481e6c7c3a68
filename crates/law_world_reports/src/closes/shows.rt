//! What the nodes are told shows in the report. These functions do nothing: their contracts are the
//! laws.

ghost use Rattle.rh_record.specs.declared.line.Line.{Line};
ghost use Rattle.rh_company.specs.Company.{Rulebook};
ghost use Rattle.rh_nodes.specs.Giving.{Deeds};
ghost use Rattle.rh_nodes.specs.Opening.{Makers};
ghost use Rattle.rh_nodes.specs.Steps.{step_line};
ghost use Rattle.rh_nodes.specs.World.{World};
ghost use Rattle.law_world_reports.specs.Closed.Shows.{ShownWorks};

/// What a line tells the nodes shows in its answers: the small changes that it makes can be given
/// so that for each of them that tells a node something there is an answer that says so. A leg
/// breaks for a node where the line broke that leg, or ended it, where it was up for the node, in
/// the direction in which the node puts there; it ends where the line ended it in the direction in
/// which the node reads; a piece comes where it was moved on that leg in the direction in which the
/// node reads, unless it is empty; and the moment passes where it was told.
pub fn what_a_line_tells_shows<K, C, S, I, O>()
    ensures { (r : Rulebook C S I O) (m : Makers K I O) (d : Deeds C S) (line : Line)
        (w : World K C S I O)
        → ShownWorks r m d (step_line r m d line w).1 w (step_line r m d line w).0 }
{}
