//! What passes an end no more, whatever lines and half steps come. This function does nothing: its
//! contract is the law.

ghost use Rattle.std.specs.Prelude.{List};
ghost use Rattle.law_node_history.specs.Changes.{Turn, after_turns};
ghost use Rattle.law_node_traces.specs.Traced.Cookies.{AreWhole};
ghost use Rattle.law_node_traces.specs.Traced.Ours.{deeds, rules};
ghost use Rattle.law_world_order.specs.FinalTurns.{IsFinal};
ghost use Rattle.law_world_order.specs.Premises.{InNewWorlds};

use crate::worlds::roles_keep_order;
use law_node_history::each_node_is_what_its_history_made;
use law_node_traces::turns_are_changes;
use law_world_reports::{
    a_client_gives_until_it_is_told_to_close, a_server_gives_until_it_is_told_to_close,
    the_history_of_an_end_goes_on, what_a_closed_end_takes_and_gives,
};
use rh_client::ClientRole;
use rh_inproxy::InProxyRole;
use rh_outproxy::OutProxyRole;
use rh_server::ServerRole;

/// In each world of new roles whose numbers are in their ranges, behind any lines and half steps
/// and whatever lines and half steps come then: where a take at an end would tell that no more
/// comes, nothing is taken there any more and the other end gives nothing; an end that was told to
/// close gives nothing; and one that closed neither gives nor takes.
pub fn turns_are_final<K>()
    ensures { InNewWorlds K (λ m w ours.
        (before later : List Turn) → AreWhole before → AreWhole later
        → (let v = after_turns rules m deeds w before in
        IsFinal m w v (after_turns rules m deeds v later))) }
{
    turns_are_changes::<K, ClientRole, ServerRole, InProxyRole, OutProxyRole>();
    roles_keep_order::<K>();
    each_node_is_what_its_history_made::<K, ClientRole, ServerRole, InProxyRole, OutProxyRole>();
    the_history_of_an_end_goes_on::<K, ClientRole, ServerRole, InProxyRole, OutProxyRole>();
    what_a_closed_end_takes_and_gives::<K, ClientRole, ServerRole, InProxyRole, OutProxyRole>();
    a_client_gives_until_it_is_told_to_close();
    a_server_gives_until_it_is_told_to_close();
}
