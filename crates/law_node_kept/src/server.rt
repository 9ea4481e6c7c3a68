//! The is legs with which a server is done. This function does nothing: its contract is the law.

ghost use Rattle.std.specs.Prelude.{◌≡◌, ℕ, List, true};
ghost use Rattle.rh_line.specs.declared.leg.LegKind.TheVariants.{InServer};
ghost use Rattle.rh_shell.specs.Shells.{ended};
ghost use Rattle.rh_server.specs.Servers.{acts, new_server, rules};
ghost use Rattle.law_moves.specs.Moving.{EndEvent, after_end_events};
ghost use Rattle.law_role_server.specs.Counted.Counting.{leg_at};
ghost use Rattle.law_node_kept.specs.Keeping.{KeptLegAtEnd};

use law_moves::ends_move_by_their_rules;
use law_node_causes::a_servers_leg_comes_up_once;
use law_node_marks::a_node_goes_on_where_it_may_lose_a_leg;
use rh_server::ServerRole;

/// Whatever happens at the node of a server, but that it is told that an is leg is lost: once it
/// has no more use for that leg, the end of it doesn't close the server. Either it left the leg by
/// IN_R1/B1, or it drew all that it put there.
pub fn no_end_of_a_leg_that_it_is_done_with_closes_a_server()
    ensures { (window : ℕ) (events : List EndEvent) (n : ℕ)
        → KeptLegAtEnd (leg_at InServer n) events
        → (let node = after_end_events rules acts (new_server window) events in
        rules.is_done node.role (leg_at InServer n) ≡ true
        → (ended rules node (leg_at InServer n)).0.course ≡ node.course) }
{
    ends_move_by_their_rules::<ServerRole>();
    a_servers_leg_comes_up_once();
    a_node_goes_on_where_it_may_lose_a_leg::<ServerRole>();
}
