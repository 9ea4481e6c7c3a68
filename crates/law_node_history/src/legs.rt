//! What each leg carried. These functions do nothing: their contracts are the laws.

ghost use Rattle.std.specs.Prelude.{◌≡◌, []};
ghost use mathlib.Core.List.{IsPrefix};
ghost use Rattle.rh_text.specs.declared.ends.Dir.{Dir};
ghost use Rattle.rh_text.specs.declared.ends.Side.{Side};
ghost use Rattle.rh_line.specs.declared.leg.Leg.{Leg};
ghost use Rattle.rh_record.specs.declared.answer.Who.{Who};
ghost use Rattle.rh_wires.specs.Wires.{receiver, sender};
ghost use Rattle.rh_company.specs.Company.{Company, Rulebook};
ghost use Rattle.rh_nodes.specs.Giving.{Deeds};
ghost use Rattle.rh_nodes.specs.Opening.{Makers};
ghost use Rattle.rh_nodes.specs.World.{World};
ghost use Rattle.law_node_history.specs.Carried.{IsTraced, LegsComeUpOnce};
ghost use Rattle.law_node_history.specs.Carried.{drawn_by, end_node, events_of, heard_on};
ghost use Rattle.law_node_history.specs.Changes.{Change, Leads, MayChange, changed};
ghost use Rattle.law_node_history.specs.Histories.{History, IsNew, all_noted, noted, nothing};

/// On each leg and in each direction, what was fed at the one end is a front of what was drawn at
/// the other, and while nothing was lost the rest is in flight. Something may have been lost only
/// once the end that takes is done with the leg, or the one that puts is and nothing is in flight.
///
/// A node that never had a leg up drew nothing there and was fed nothing, and only the nodes at its
/// two ends ever had. At the server's end of an IN leg of the client that is the one in proxy that
/// reads it, also where it is its predecessor's. A node heard all that it was fed, and a proxy that
/// was let go a front of it.
///
/// It rests on what each role has to see to: a leg that came up at a node does not come up there
/// again.
pub fn legs_are_carried<K, C, S, I, O>()
    ensures begins { (r : Rulebook C S I O) (m : Makers K I O) (d : Deeds C S)
        (w : World K C S I O) → IsNew w → IsTraced r m d w.company w nothing }
    ensures change { (r : Rulebook C S I O) (m : Makers K I O) (d : Deeds C S)
        (first : Company C S I O) (w : World K C S I O) (h : History)
        → IsTraced r m d first w h → LegsComeUpOnce r m d first w.cast → (change : Change)
        → MayChange r w change → IsTraced r m d first (changed r m d w change) (noted w h change) }
    ensures changes { (r : Rulebook C S I O) (m : Makers K I O) (d : Deeds C S)
        (first : Company C S I O) (w v : World K C S I O) (h : History)
        (leads : Leads r m d w v) → LegsComeUpOnce r m d first w.cast → IsTraced r m d first w h
        → IsTraced r m d first v (all_noted r m d w h leads.changes) }
{}

/// What the node at one end of a leg heard is a front of what the node at the other drew there,
/// whatever broke the leg.
pub fn what_is_heard_was_drawn<K, C, S, I, O>()
    ensures { (r : Rulebook C S I O) (m : Makers K I O) (d : Deeds C S) (first : Company C S I O)
        (w : World K C S I O) (h : History) → IsTraced r m d first w h → (leg : Leg) (dir : Dir)
        → IsPrefix (heard_on leg (events_of h (end_node w.readers leg (receiver dir))))
        (drawn_by r m d first w.cast h (end_node w.readers leg (sender dir)) leg) }
{}

/// A node that stands at no end of a leg drew nothing there, and heard nothing: so of an IN leg of
/// the client all in proxies but its reader.
pub fn a_leg_is_read_at_its_ends<K, C, S, I, O>()
    ensures { (r : Rulebook C S I O) (m : Makers K I O) (d : Deeds C S) (first : Company C S I O)
        (w : World K C S I O) (h : History) → IsTraced r m d first w h → (node : Who) (leg : Leg)
        → ((end : Side) → end_node w.readers leg end ≡ node → ⊥)
        → (drawn_by r m d first w.cast h node leg ≡ [])
        × (heard_on leg (events_of h node) ≡ []) }
{}
