//! The cookies of the client's legs. These functions do nothing: their contracts are the laws.

ghost use Rattle.std.specs.Prelude.{◌≡◌, ◌++◌, Bool, List};
ghost use Rattle.rh_company.specs.Company.{Rulebook};
ghost use Rattle.rh_nodes.specs.Giving.{Deeds};
ghost use Rattle.rh_nodes.specs.Opening.{Makers};
ghost use Rattle.rh_nodes.specs.World.{World};
ghost use Rattle.law_node_history.specs.Carried.{happened};
ghost use Rattle.law_node_history.specs.Changes.{Change};
ghost use Rattle.law_node_history.specs.Drawn.{AreLeft, DrawsBy, HaveOwnCookies};
ghost use Rattle.law_node_history.specs.Histories.{all_noted, nothing};

/// No two legs of the client come up with one cookie by changes that draw the cookies, as lines
/// make them: behind all of them, and behind each front, so in the midst of a line as well. It
/// holds while the count of cookies has not come to the end of its type, where it stands still and
/// one cookie is drawn again.
pub fn cookies_of_lines_differ<K, C, S, I, O>()
    ensures { (r : Rulebook C S I O) (m : Makers K I O) (d : Deeds C S) (kind : Change → Bool)
        (w v : World K C S I O) (by : DrawsBy kind r m d w v) → AreLeft v.cookies
        → (front rest : List Change) → by.works.leads.changes ≡ front ++ rest
        → HaveOwnCookies (happened (all_noted r m d w nothing front).client) }
{}
