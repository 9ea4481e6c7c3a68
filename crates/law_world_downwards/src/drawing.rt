//! What a client draws. This function does nothing: its contract is the law.

ghost use Rattle.std.specs.Prelude.{List};
ghost use Rattle.rh_http.specs.declared.config.ClientConfig.{ClientConfig};
ghost use Rattle.rh_line.specs.declared.leg.Leg.{Leg};
ghost use Rattle.rh_client.specs.Client.{acts, first_client, rules};
ghost use Rattle.law_moves.specs.Moving.{EndEvent, after_end_events};
ghost use Rattle.law_node_marks.specs.Losing.{DrewAll};
ghost use Rattle.law_world_downwards.specs.Drawing.{AllDrawWhole};

use law_moves::ends_move_by_their_rules;
use rh_client::ClientRole;

/// Whatever happens at the node of a client: where each draw of a leg gives fewer bytes than it has
/// room for, nothing that was put there is left to draw.
pub fn what_a_client_drew_at_once_is_drawn()
    ensures { (config : ClientConfig) (events : List EndEvent) (leg : Leg)
        → AllDrawWhole rules acts leg (first_client config) events
        → DrewAll (after_end_events rules acts (first_client config) events) leg }
{
    ends_move_by_their_rules::<ClientRole>();
}
