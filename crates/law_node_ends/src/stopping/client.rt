//! A client that was told to close. Its function does nothing: its contract is the law.

ghost use Rattle.std.specs.Prelude.{◌≡◌, true};
ghost use Rattle.rh_client.specs.declared.state.ClientRole.{ClientRole};
ghost use Rattle.rh_client.specs.Client.{rules, acts};
ghost use Rattle.law_node_ends.specs.Stops.{MovesGiveNoMore, EventsGiveNoMore};
ghost use Rattle.law_node_ends.specs.Stops.{ClosedEndsAreSilent};

use law_moves::{ends_move_by_their_rules, first_cause_is_kept};
use rh_client::ClientRole;

/// A client that was told to close stays so and accepts no PDU, by whatever moves and whatever
/// happens at its node; and one whose node closed neither accepts nor hands out any.
pub fn a_client_that_closes_gives_no_more()
    ensures moves { MovesGiveNoMore rules acts (λ (s : ClientRole). s.is_closing) }
    ensures close { (s : ClientRole) → (acts.close s).is_closing ≡ true }
    ensures events { EventsGiveNoMore rules acts (λ (s : ClientRole). s.is_closing) }
    ensures closed { ClosedEndsAreSilent rules acts }
{
    ends_move_by_their_rules::<ClientRole>();
    first_cause_is_kept::<ClientRole>();
}
