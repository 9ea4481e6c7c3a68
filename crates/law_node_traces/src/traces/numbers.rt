//! Which in proxy reads which IN channel. These functions do nothing: their contracts are the laws.

ghost use Rattle.std.specs.Prelude.{◌≡◌, ◌≢◌, ℕ, true};
ghost use Rattle.rh_line.specs.declared.leg.LegKind.TheVariants.{ClientIn};
ghost use Rattle.rh_record.specs.declared.answer.Who.TheVariants.{Client};
ghost use Rattle.rh_wires.specs.Readers.{reader_of};
ghost use Rattle.rh_company.specs.Company.{Company, Rulebook};
ghost use Rattle.rh_nodes.specs.Giving.{Deeds};
ghost use Rattle.rh_nodes.specs.Opening.{Makers};
ghost use Rattle.rh_nodes.specs.Settling.{leg_at};
ghost use Rattle.rh_nodes.specs.World.{World};
ghost use Rattle.law_node_history.specs.Carried.{IsTraced, LegsComeUpOnce, came_up, events_of};
ghost use Rattle.law_node_history.specs.Changes.{ByLines, Change, Leads, MayChange, changed};
ghost use Rattle.law_node_history.specs.Histories.{History, IsNew, all_noted, nothing};
ghost use Rattle.law_node_traces.specs.Traced.Cookies.{ByChanges};
ghost use Rattle.law_node_traces.specs.Traced.Numbers.{AreRead, ComeUpByLines, ComeUpInOrder, is_made};

/// In every world that is reached from a new one an in proxy that was made reads the channel of its
/// number. Each channel that has a reader came up at the client, and is read by an in proxy that
/// was made: that of its own number, or that which reads the channel before it. Each change keeps
/// it.
pub fn proxies_are_numbered<K, C, S, I, O>()
    ensures reached { (r : Rulebook C S I O) (m : Makers K I O) (d : Deeds C S)
        (w v : World K C S I O) → IsNew w → LegsComeUpOnce r m d w.company w.cast
        → Leads r m d w v → AreRead v.readers (is_made v.company) }
    ensures change { (r : Rulebook C S I O) (m : Makers K I O) (d : Deeds C S)
        (first : Company C S I O) (w : World K C S I O) (h : History)
        → IsTraced r m d first w h → LegsComeUpOnce r m d first w.cast
        → AreRead w.readers (is_made w.company) → (change : Change) → MayChange r w change
        → (let v = changed r m d w change in AreRead v.readers (is_made v.company)) }
    ensures up { (r : Rulebook C S I O) (m : Makers K I O) (d : Deeds C S)
        (first : Company C S I O) (w : World K C S I O) (h : History)
        → IsTraced r m d first w h → (n : ℕ) → reader_of w.readers n ≢ 0
        → came_up (leg_at ClientIn n) (events_of h Client) ≡ true }
{}

/// In every world that changes lead to from a new one, of lines and half steps, each IN channel
/// that has a reader has an in proxy of its own number; or it has the reader of the channel before
/// it, and came up there as well. Each leg of the client came up under a cookie of 16 bytes, as
/// those of the changes are. Where lines alone led there, each IN channel that came up at the
/// client is read, and each leg of an in proxy that came up at the server is of one that was made.
pub fn channels_come_up_in_order<K, C, S, I, O>()
    ensures changes { (r : Rulebook C S I O) (m : Makers K I O) (d : Deeds C S)
        (w v : World K C S I O) → IsNew w → LegsComeUpOnce r m d w.company w.cast
        → (by : ByChanges r m d w v)
        → ComeUpInOrder v (all_noted r m d w nothing by.leads.changes) }
    ensures lines { (r : Rulebook C S I O) (m : Makers K I O) (d : Deeds C S)
        (w v : World K C S I O) → IsNew w → LegsComeUpOnce r m d w.company w.cast
        → (lines : ByLines r m d w v)
        → ComeUpByLines v (all_noted r m d w nothing lines.leads.changes) }
{}
