//! A client whose work is done. This function does nothing: its contract is the law.

ghost use Rattle.std.specs.Prelude.{◌≡◌, List};
ghost use Rattle.rh_http.specs.declared.config.ClientConfig.{ClientConfig};
ghost use Rattle.rh_shell.specs.declared.answers.Phase.TheVariants.{Ended};
ghost use Rattle.rh_client.specs.Client.{acts, first_client, rules};
ghost use Rattle.law_moves.specs.Moving.{EndEvent, after_end_events};

use law_moves::ends_move_by_their_rules;
use law_node_ends::a_leg_that_a_client_left_stays_unused;
use rh_client::ClientRole;

/// Whatever happens at the node of a client: once its work is done, it is done for good.
pub fn a_client_whose_work_is_done_is_done_for_good()
    ensures { (config : ClientConfig) (events more : List EndEvent)
        → (let node = after_end_events rules acts (first_client config) events in
        node.role.phase ≡ Ended
        → (after_end_events rules acts node more).role.phase ≡ Ended) }
{
    ends_move_by_their_rules::<ClientRole>();
    a_leg_that_a_client_left_stays_unused();
}
