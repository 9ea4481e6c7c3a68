//! What the events of a report tell of the run. These functions do nothing: their contracts are the
//! laws.

ghost use Rattle.std.specs.Prelude.{◌≡◌, ◌++◌, ℕ, List, [], ◌∷◌};
ghost use Rattle.rh_text.specs.declared.ends.Side.{Side};
ghost use Rattle.rh_line.specs.declared.cause.Cause.{Cause};
ghost use Rattle.rh_record.specs.declared.line.Line.{Line};
ghost use Rattle.rh_record.specs.Events.Events.{Closes, Event, events, given, offered, taken};
ghost use Rattle.rh_company.specs.Company.{Company, Rulebook};
ghost use Rattle.rh_nodes.specs.Giving.{Deeds};
ghost use Rattle.rh_nodes.specs.Opening.{Makers};
ghost use Rattle.rh_nodes.specs.Steps.{told};
ghost use Rattle.rh_nodes.specs.World.{World};
ghost use Rattle.law_moves.specs.Moving.{IsClosed};
ghost use Rattle.law_node_history.specs.Changes as changes;
ghost use Rattle.law_node_history.specs.Changes.{Change, Leads};
ghost use Rattle.law_node_history.specs.Closes.{HasClosed};
ghost use Rattle.law_node_history.specs.Histories.{AreRuns, History, all_noted};
ghost use Rattle.law_world_reports.specs.Telling.{Moment, StandsStill, node_of};
ghost use Rattle.law_world_reports.specs.Telling.{GoesOn, end_events, end_given, end_taken, in_the_end, until};

/// Each front of the events of a report stands at a moment of the run. What the front tells of the
/// PDUs that each end gave and took is what the history of that end says until then, and what the
/// whole report tells is what the history says in the end. The first event behind the front tells
/// of that moment: an end that takes no more, as nothing comes, one that has closed, or one that
/// is told to give no more.
pub fn a_report_tells_what_was_given_and_taken<K, C, S, I, O>()
    ensures { (r : Rulebook C S I O) (m : Makers K I O) (d : Deeds C S) (lines : List Line)
        (w : World K C S I O) → w.closed ≡ [] → (front behind : List Event)
        → events (told r m d w lines) ≡ front ++ behind
        → Moment r m d w (offered lines) front behind }
{}

/// An end that closed gives and takes nothing any more, whatever changes.
pub fn what_a_closed_end_takes_and_gives<K, C, S, I, O>()
    ensures { (r : Rulebook C S I O) (m : Makers K I O) (d : Deeds C S) (first : Company C S I O)
        (v u : World K C S I O) (h : History) (leads : Leads r m d v u) (end : Side) (why : Cause)
        → AreRuns r m d first v h → HasClosed v.company (node_of end) why
        → StandsStill r m d first v h leads.changes end }
{}

/// Whatever changes, the history of an end goes on from what it was; and where the end is told to
/// give no more, it goes on with that.
pub fn the_history_of_an_end_goes_on<K, C, S, I, O>()
    ensures ever { (r : Rulebook C S I O) (m : Makers K I O) (d : Deeds C S) (v : World K C S I O)
        (h : History) (later : List Change) (end : Side)
        → GoesOn (end_events (all_noted r m d v h later) end) (end_events h end) }
    ensures closes { (r : Rulebook C S I O) (m : Makers K I O) (d : Deeds C S)
        (v : World K C S I O) (h : History) (rest : List Change) (end : Side)
        → GoesOn (end_events (all_noted r m d v h (changes.Closes end ∷ rest)) end)
        (end_events h end ++ IsClosed ∷ []) }
{}

/// Where by its history an end takes nothing any more from some moment on, no take is told behind
/// the events until then; and where it gives nothing, what is told that it gave is what was told
/// until then.
pub fn what_passes_no_more_is_not_told<K, C, S, I, O>()
    ensures taken { (r : Rulebook C S I O) (m : Makers K I O) (d : Deeds C S)
        (w : World K C S I O) (pdus : List (List ℕ)) (front behind : List Event)
        (moment : Moment r m d w pdus front behind) (end : Side)
        → end_taken r d w.company (in_the_end moment) end
        ≡ end_taken r d w.company (until moment) end
        → taken end behind ≡ [] }
    ensures given { (r : Rulebook C S I O) (m : Makers K I O) (d : Deeds C S)
        (w : World K C S I O) (pdus : List (List ℕ)) (front behind : List Event)
        (moment : Moment r m d w pdus front behind) (end : Side)
        → end_given r d w.company (in_the_end moment) end
        ≡ end_given r d w.company (until moment) end
        → given end pdus (front ++ behind) ≡ given end pdus front }
{}

/// So behind an event that tells that an end closed, no take and no give of that end is told.
pub fn nothing_is_told_of_a_closed_end<K, C, S, I, O>()
    ensures taken { (r : Rulebook C S I O) (m : Makers K I O) (d : Deeds C S) (lines : List Line)
        (w : World K C S I O) → w.closed ≡ [] → (end : Side) (front behind : List Event)
        → events (told r m d w lines) ≡ front ++ Closes end ∷ behind → taken end behind ≡ [] }
    ensures given { (r : Rulebook C S I O) (m : Makers K I O) (d : Deeds C S) (lines : List Line)
        (w : World K C S I O) → w.closed ≡ [] → (end : Side) (front behind : List Event)
        → events (told r m d w lines) ≡ front ++ Closes end ∷ behind
        → given end (offered lines) (events (told r m d w lines))
        ≡ given end (offered lines) front }
{}
