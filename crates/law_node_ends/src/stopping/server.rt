//! A server that was told to close. Its function does nothing: its contract is the law.

ghost use Rattle.std.specs.Prelude.{◌≡◌, true};
ghost use Rattle.rh_server.specs.States.{Server, is_closing};
ghost use Rattle.rh_server.specs.Servers.{rules, acts};
ghost use Rattle.law_node_ends.specs.Stops.{MovesGiveNoMore, EventsGiveNoMore};
ghost use Rattle.law_node_ends.specs.Stops.{ClosedEndsAreSilent};

use law_moves::{ends_move_by_their_rules, first_cause_is_kept};
use rh_server::ServerRole;

/// A server that was told to close stays so and accepts no PDU, by whatever moves and whatever
/// happens at its node; and one whose node closed neither accepts nor hands out any.
pub fn a_server_that_closes_gives_no_more()
    ensures moves { MovesGiveNoMore rules acts (λ (s : Server). is_closing s.giving) }
    ensures close { (s : Server) → is_closing (acts.close s).giving ≡ true }
    ensures events { EventsGiveNoMore rules acts (λ (s : Server). is_closing s.giving) }
    ensures closed { ClosedEndsAreSilent rules acts }
{
    ends_move_by_their_rules::<ServerRole>();
    first_cause_is_kept::<ServerRole>();
}
