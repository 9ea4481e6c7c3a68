//! Laws of one direction of a virtual connection. These functions do nothing: their contracts are
//! the laws.

ghost use Rattle.std.specs.Prelude.{ℕ, ◌≡◌, ◌++◌, true};
ghost use mathlib.Core.List.{IsPrefix};
ghost use Rattle.law_order.specs.Items.{IsChannel};
ghost use Rattle.law_order.specs.Taking.{ReportsEnd};
ghost use Rattle.law_order.specs.Routes.{Route, IsRoute};
ghost use Rattle.law_order.specs.Paths.{OnLegs, IsWhole, path, Losses, Arrives, reach};
ghost use Rattle.law_order.specs.Examples.{replaced_twice};

/// What an end took, and then what it can take next, is a front of what the other end gave, each
/// PDU once and in order, whatever broke.
pub fn taken_is_a_front_of_given()
    ensures taken { (r : Route) → IsRoute r → IsPrefix r.taker.taken r.giver.given }
    ensures held { (r : Route) → IsRoute r
        → IsPrefix (r.taker.taken ++ r.taker.shelves.now.held) r.giver.given }
{}

/// Where an end reports that the other one gives no more, all that was given was taken.
pub fn all_is_taken_at_a_clean_end()
    ensures taken { (r : Route) → IsRoute r → ReportsEnd r.taker
        → r.taker.taken ≡ r.giver.given }
    ensures closing { (r : Route) → IsRoute r → ReportsEnd r.taker → r.giver.closing ≡ true }
{}

/// Behind a clean end nothing is taken: at a later time, to which all that was taken is still taken
/// and no more was given, it is the same.
pub fn nothing_is_taken_behind_a_clean_end()
    ensures { (r later : Route) → IsRoute r → IsRoute later → ReportsEnd r.taker
        → later.giver.given ≡ r.giver.given → IsPrefix r.taker.taken later.taker.taken
        → later.taker.taken ≡ r.taker.taken }
{}

/// On no leg stands anything behind a handover mark, nor a PDU or END behind END.
pub fn nothing_stands_behind_a_mark()
    ensures near { (r : Route) (m n : ℕ) → IsRoute r → r.legs m ≡ true
        → IsChannel (r.sent n) × IsChannel (r.came m n) }
    ensures far { (r : Route) (m : ℕ) → IsRoute r → IsChannel (r.put m) × IsChannel (r.got m) }
{}

/// While no leg loses anything, what was given is what was taken, and then what is on its way.
pub fn nothing_is_lost()
    ensures { (r : Route) (on : OnLegs) → IsRoute r → IsWhole r on
        → r.giver.given ≡ r.taker.taken ++ path r on }
{}

/// What was given begins with what was taken and what can still be taken, whatever broke, ended or
/// closed.
pub fn what_can_be_taken_was_given()
    ensures { (r : Route) (on : OnLegs) (lost : Losses) → IsRoute r → Arrives r on lost
        → IsPrefix (r.taker.taken ++ reach r on lost) r.giver.given }
{}

/// What these laws ask for can be met, by a direction that was replaced twice and came to its clean
/// end.
pub fn a_route_can_end()
    ensures route { IsRoute replaced_twice }
    ensures ended { ReportsEnd replaced_twice.taker }
{}
