//! What closed the nodes that stand closed. This function does nothing: its contract is the law.

ghost use Rattle.std.specs.Prelude.{◌⊎◌};
ghost use Rattle.rh_line.specs.declared.cause.Cause.{Cause};
ghost use Rattle.rh_record.specs.declared.answer.Who.{Who};
ghost use Rattle.rh_company.specs.Company.{Rulebook};
ghost use Rattle.rh_nodes.specs.Giving.{Deeds};
ghost use Rattle.rh_nodes.specs.Opening.{Makers};
ghost use Rattle.rh_nodes.specs.World.{World};
ghost use Rattle.law_node_history.specs.Changes.{Leads};
ghost use Rattle.law_node_history.specs.Closes.{IsClosedBy};
ghost use Rattle.law_node_history.specs.Standing.{MakesGoing, StandsClosed};

/// A node that stands closed behind changes stood so before them, with the same cause, or one of
/// them told it something that closed it so. Nothing else closes a node: no draw, no leg that comes
/// up, no act of an end.
pub fn what_stands_closed_was_closed<K, C, S, I, O>()
    ensures { (r : Rulebook C S I O) (m : Makers K I O) (d : Deeds C S) → MakesGoing r m
        → (w v : World K C S I O) (leads : Leads r m d w v) (node : Who) (why : Cause)
        → StandsClosed v.company node why
        → StandsClosed w.company node why ⊎ IsClosedBy r m d w leads.changes node why }
{}
