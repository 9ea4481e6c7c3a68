//! Which nodes closed, and what closed them. These functions do nothing: their contracts are the
//! laws.

ghost use Rattle.std.specs.Prelude.{◌≡◌, ◌≤◌, ℕ, List, [], None, Some};
ghost use Rattle.rh_line.specs.declared.cause.Cause.{Cause};
ghost use Rattle.rh_line.specs.declared.state.State.TheVariants.{Closed};
ghost use Rattle.rh_record.specs.declared.answer.Answer.TheVariants.{NodeClosed};
ghost use Rattle.rh_record.specs.declared.answer.Who.{Who};
ghost use Rattle.rh_record.specs.declared.answer.Who.TheVariants.{Client, In, Out, Server};
ghost use Rattle.rh_record.specs.declared.line.Line.{Line};
ghost use Rattle.rh_shell.specs.Shells.{Shell, state_of};
ghost use Rattle.rh_company.specs.declared.closing.Closing.{Closing};
ghost use Rattle.rh_company.specs.declared.event.Event.{Event};
ghost use Rattle.rh_company.specs.declared.place.Place.TheVariants.{Here};
ghost use Rattle.rh_company.specs.Company.{Company, Rulebook, tell};
ghost use Rattle.rh_nodes.specs.declared.half.Half.{Half};
ghost use Rattle.rh_nodes.specs.Giving.{Deeds};
ghost use Rattle.rh_nodes.specs.Halves.{half};
ghost use Rattle.rh_nodes.specs.Opening.{Makers};
ghost use Rattle.rh_nodes.specs.Steps.{step, step_line, told};
ghost use Rattle.rh_nodes.specs.World.{World};
ghost use Rattle.law_node_history.specs.Changes.{Change, Leads, MayChange, Works, changed};
ghost use Rattle.law_node_history.specs.Closes.{ClientTells, HasClosed, IsClosedBy, IsOneOf, LineCloses};
ghost use Rattle.law_node_history.specs.Closes.{ServerTells, closings_of};
ghost use Rattle.law_node_history.specs.Histories.{in_place, out_place};

/// A node that a line reports as closed was told something by one of the changes of that line, and
/// that closed it with the cause that is reported; and each node that was closed so is reported.
/// Behind a line or a half step nothing is left to report.
pub fn what_is_reported_closed_was_closed<K, C, S, I, O>()
    ensures closed { (r : Rulebook C S I O) (m : Makers K I O) (d : Deeds C S) (line : Line)
        (w : World K C S I O) (node : Who) (why : Cause) → w.closed ≡ []
        → IsOneOf (NodeClosed node why) (step r m d line w).1
        → LineCloses r m d line w node why }
    ensures reported { (r : Rulebook C S I O) (m : Makers K I O) (d : Deeds C S) (line : Line)
        (w : World K C S I O) (node : Who) (why : Cause)
        (works : Works r m d w (step_line r m d line w).0)
        → IsClosedBy r m d w works.leads.changes node why
        → IsOneOf (NodeClosed node why) (step r m d line w).1 }
    ensures line { (r : Rulebook C S I O) (m : Makers K I O) (d : Deeds C S) (line : Line)
        (w : World K C S I O) → (step r m d line w).0.closed ≡ [] }
    ensures half { (r : Rulebook C S I O) (m : Makers K I O) (one : Half) (w : World K C S I O)
        → (half r m w one).0.closed ≡ [] }
{}

/// So what is still to be reported at any moment of a run are nodes that are closed, with the cause
/// that is told.
pub fn what_is_to_be_reported_has_closed<K, C, S, I, O>()
    ensures { (r : Rulebook C S I O) (m : Makers K I O) (d : Deeds C S) (w v : World K C S I O)
        → w.closed ≡ [] → Leads r m d w v → (x : Closing) → IsOneOf x v.closed
        → HasClosed v.company x.who x.cause }
{}

/// A node closes at most once: what closes it leaves it closed with that cause, whatever changes it
/// stays so, and nothing that it is told closes it again. A proxy that was let go has no cause to
/// tell, and nothing closes it.
pub fn a_node_closes_once<K, C, S, I, O>()
    ensures closes { (r : Rulebook C S I O) (c : Company C S I O) (node : Who) (event : Event)
        (why : Cause) → (tell r c node event).1 ≡ Some why
        → HasClosed (tell r c node event).0 node why }
    ensures change { (r : Rulebook C S I O) (m : Makers K I O) (d : Deeds C S) (why : Cause)
        (node : Who) (w : World K C S I O) (change : Change) → HasClosed w.company node why
        → MayChange r w change → HasClosed (changed r m d w change).company node why }
    ensures ever { (r : Rulebook C S I O) (m : Makers K I O) (d : Deeds C S) (why : Cause)
        (node : Who) (w v : World K C S I O) → Leads r m d w v → HasClosed w.company node why
        → HasClosed v.company node why }
    ensures once { (r : Rulebook C S I O) (c : Company C S I O) (node : Who) (event : Event)
        (why : Cause) → HasClosed c node why → (tell r c node event).1 ≡ None }
{}

/// Over all lines of a recording a node is reported as closed once at most.
pub fn a_node_is_reported_closed_once<K, C, S, I, O>()
    ensures { (r : Rulebook C S I O) (m : Makers K I O) (d : Deeds C S) (node : Who)
        (lines : List Line) (w : World K C S I O) → w.closed ≡ []
        → closings_of node (told r m d w lines) ≤ 1 }
{}

/// An end that closed tells its cause for ever: as its state, to who gives and who takes there, and
/// in the last lines of the report; and no channel of it is replaced any more.
pub fn a_closed_end_tells_its_cause<K, C, S, I, O>()
    ensures client { (r : Rulebook C S I O) (d : Deeds C S) (w : World K C S I O) (why : Cause)
        → HasClosed w.company Client why → ClientTells r d w why }
    ensures server { (r : Rulebook C S I O) (d : Deeds C S) (w : World K C S I O) (why : Cause)
        → HasClosed w.company Server why → ServerTells r d w why }
{}

/// So does the state of a proxy that closed, until it is let go.
pub fn a_closed_proxy_names_its_cause<C, S, I, O>()
    ensures in_proxy { (r : Rulebook C S I O) (c : Company C S I O) (number : ℕ) (why : Cause)
        (node : Shell I) (legs : ℕ) → HasClosed c (In number) why
        → in_place c number ≡ Here node legs → state_of r.in_proxy node ≡ Closed why }
    ensures out_proxy { (r : Rulebook C S I O) (c : Company C S I O) (number : ℕ) (why : Cause)
        (node : Shell O) (legs : ℕ) → HasClosed c (Out number) why
        → out_place c number ≡ Here node legs → state_of r.out_proxy node ≡ Closed why }
{}
