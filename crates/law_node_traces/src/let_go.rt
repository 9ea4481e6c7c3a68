//! The legs of proxies that were let go. The function does nothing: its contract is the law.

ghost use Rattle.std.specs.Prelude.{◌≡◌, false, true};
ghost use Rattle.rh_text.specs.declared.ends.Side.{Side};
ghost use Rattle.rh_line.specs.declared.leg.Leg.{Leg};
ghost use Rattle.rh_wires.specs.Legs as legs;
ghost use Rattle.rh_company.specs.Company.{Rulebook};
ghost use Rattle.rh_nodes.specs.Giving.{Deeds};
ghost use Rattle.rh_nodes.specs.Opening.{Makers};
ghost use Rattle.rh_nodes.specs.World.{World, at};
ghost use Rattle.law_node_history.specs.Carried.{LegsComeUpOnce};
ghost use Rattle.law_node_history.specs.Changes.{Leads};
ghost use Rattle.law_node_history.specs.Histories.{IsNew};
ghost use Rattle.law_node_traces.specs.LetGo.{was_let_go};

/// In each world that changes lead to from a new one, whose roles have each leg up at most once: no
/// leg is up for a proxy that was let go.
pub fn a_proxy_that_was_let_go_has_no_leg_up<K, C, S, I, O>()
    ensures { (r : Rulebook C S I O) (m : Makers K I O) (d : Deeds C S) (w v : World K C S I O)
        → IsNew w → LegsComeUpOnce r m d w.company w.cast → Leads r m d w v
        → (leg : Leg) (end : Side)
        → was_let_go v.company (at v leg end) ≡ true → legs.is_up leg end v.legs ≡ false }
{}
