//! What happened at each node. These functions do nothing: their contracts are the laws.

ghost use Rattle.rh_company.specs.Company.{Company, Rulebook};
ghost use Rattle.rh_nodes.specs.Giving.{Deeds};
ghost use Rattle.rh_nodes.specs.Opening.{Makers};
ghost use Rattle.rh_nodes.specs.World.{World};
ghost use Rattle.law_node_history.specs.Changes.{Change, Leads, MayChange, changed};
ghost use Rattle.law_node_history.specs.Histories.{AreRuns, History, IsNew, all_noted, noted, nothing};

/// Each node is what its history made of it: the client and the server what their events and acts
/// made of what they were at first, and a proxy what its events made of what it was when it was
/// made, which begin with the moment. Nothing is noted of a proxy before that, nor once it was let
/// go. Each change notes what it was to each node; so it is over changes from any world in which no
/// proxy was made yet, as each recording begins.
pub fn each_node_is_what_its_history_made<K, C, S, I, O>()
    ensures begins { (r : Rulebook C S I O) (m : Makers K I O) (d : Deeds C S)
        (w : World K C S I O) → IsNew w → AreRuns r m d w.company w nothing }
    ensures change { (r : Rulebook C S I O) (m : Makers K I O) (d : Deeds C S)
        (first : Company C S I O) (w : World K C S I O) (h : History) (change : Change)
        → MayChange r w change → AreRuns r m d first w h
        → AreRuns r m d first (changed r m d w change) (noted w h change) }
    ensures changes { (r : Rulebook C S I O) (m : Makers K I O) (d : Deeds C S)
        (first : Company C S I O) (w v : World K C S I O) (h : History)
        (leads : Leads r m d w v) → AreRuns r m d first w h
        → AreRuns r m d first v (all_noted r m d w h leads.changes) }
{}
