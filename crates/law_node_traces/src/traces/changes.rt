//! Lines and half steps as changes. The function does nothing: its contract is the law.

ghost use Rattle.std.specs.Prelude.{◌≡◌, List, true};
ghost use Rattle.rh_company.specs.Company.{Rulebook};
ghost use Rattle.rh_nodes.specs.declared.half.Half.{Half};
ghost use Rattle.rh_nodes.specs.Giving.{Deeds};
ghost use Rattle.rh_nodes.specs.Halves.{half};
ghost use Rattle.rh_nodes.specs.Opening.{Makers};
ghost use Rattle.rh_nodes.specs.World.{World};
ghost use Rattle.law_node_history.specs.Changes.{ByLines, Turn, after_turns};
ghost use Rattle.law_node_traces.specs.Traced.Cookies.{AreWhole, ByChanges, is_whole_half};

/// What lines do they do by changes whose cookies are whole; so does each half step whose cookie
/// is, as that of each call is by its type, and so do lines and such half steps in any order.
pub fn turns_are_changes<K, C, S, I, O>()
    ensures lines { (r : Rulebook C S I O) (m : Makers K I O) (d : Deeds C S)
        (w v : World K C S I O) → ByLines r m d w v → ByChanges r m d w v }
    ensures half { (r : Rulebook C S I O) (m : Makers K I O) (d : Deeds C S) (one : Half)
        (w : World K C S I O) → is_whole_half one ≡ true → ByChanges r m d w (half r m w one).0 }
    ensures turns { (r : Rulebook C S I O) (m : Makers K I O) (d : Deeds C S) (turns : List Turn)
        (w : World K C S I O) → AreWhole turns → ByChanges r m d w (after_turns r m d w turns) }
{}
