//! What each node hears, in its turn. These functions do nothing: their contracts are the laws.

ghost use mathlib.Core.List.{IsPrefix};
ghost use Rattle.rh_text.specs.declared.ends.Dir.{Dir};
ghost use Rattle.rh_line.specs.declared.leg.Leg.{Leg};
ghost use Rattle.rh_wires.specs.Wires.{receiver, sender};
ghost use Rattle.rh_company.specs.Company.{Company, Rulebook};
ghost use Rattle.rh_nodes.specs.Giving.{Deeds};
ghost use Rattle.rh_nodes.specs.Opening.{Makers};
ghost use Rattle.rh_nodes.specs.World.{World};
ghost use Rattle.law_node_history.specs.Carried.{IsTraced, LegsComeUpOnce};
ghost use Rattle.law_node_history.specs.Carried.{drawn_by, end_node, events_of, heard_on};
ghost use Rattle.law_node_history.specs.Changes.{Change, Leads, MayChange, changed};
ghost use Rattle.law_node_history.specs.Histories.{History, IsNew, all_noted, noted, nothing};
ghost use Rattle.law_node_traces.specs.Traced.Turns.{HearInTurn};

/// Each node hears pieces only on legs that came up for it before: so it is behind any changes from
/// a new world, and one more change from a world that is traced keeps it.
pub fn nodes_hear_in_turn<K, C, S, I, O>()
    ensures new { (r : Rulebook C S I O) (m : Makers K I O) (d : Deeds C S)
        (w v : World K C S I O) → IsNew w → LegsComeUpOnce r m d w.company w.cast
        → (leads : Leads r m d w v) → HearInTurn (all_noted r m d w nothing leads.changes) }
    ensures change { (r : Rulebook C S I O) (m : Makers K I O) (d : Deeds C S)
        (first : Company C S I O) (w : World K C S I O) (h : History)
        → IsTraced r m d first w h → HearInTurn h → (change : Change) → MayChange r w change
        → HearInTurn (noted w h change) }
    ensures changes { (r : Rulebook C S I O) (m : Makers K I O) (d : Deeds C S)
        (first : Company C S I O) (w v : World K C S I O) (h : History)
        (leads : Leads r m d w v) → LegsComeUpOnce r m d first w.cast → IsTraced r m d first w h
        → HearInTurn h → HearInTurn (all_noted r m d w h leads.changes) }
{}

/// Behind one more change what the node at one end of a leg heard there is a front of what the
/// node at the other end had drawn before it: a change that feeds a piece draws nothing. A new
/// reader of an IN leg of the client heard nothing there.
pub fn what_is_heard_was_drawn_before<K, C, S, I, O>()
    ensures { (r : Rulebook C S I O) (m : Makers K I O) (d : Deeds C S) (first : Company C S I O)
        (w : World K C S I O) (h : History) → IsTraced r m d first w h
        → LegsComeUpOnce r m d first w.cast → (change : Change) → MayChange r w change
        → (leg : Leg) (dir : Dir)
        → (let readers = (changed r m d w change).readers in
        IsPrefix (heard_on leg (events_of (noted w h change)
        (end_node readers leg (receiver dir))))
        (drawn_by r m d first w.cast h (end_node w.readers leg (sender dir)) leg)) }
{}
