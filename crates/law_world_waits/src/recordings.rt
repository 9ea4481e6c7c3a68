//! What waits in recordings at rest. This function does nothing: its contract is the law.

ghost use Rattle.std.specs.Prelude.{List, ℕ};
ghost use Rattle.rh_record.specs.declared.line.Line.{Line};
ghost use Rattle.law_world_waits.specs.Recordings.{WaitsWhereQuiet};

use crate::puts::nothing_is_put_at_rest;
use law_node_begins::proxies_keep_their_pipes;
use law_node_traces::a_recording_of_roles_is_known;
use law_world_rest::{
    a_quiet_recording_is_at_rest, a_silent_round_leaves_the_world_at_rest,
    nodes_of_roles_are_steady,
};
use law_world_ways::{
    a_leg_that_came_up_is_known, a_recording_tells_all_that_it_keeps, lines_end_legs_in_time,
    settling_ends_legs_in_time,
};
use rh_client::ClientRole;
use rh_inproxy::InProxyRole;
use rh_outproxy::OutProxyRole;
use rh_server::ServerRole;
use rh_world::WorldConfig;

/// Behind a `settle` line that is answered quiet, of a recording of roles whose `break` and `end`
/// lines that are answered ok are each of a leg that is over there: while all nodes go on, what the
/// answers so far tell as given is what they tell as taken and what waits at nodes. No PDU is on a
/// leg, and the taker's current list is empty. On a leg that is up, no node that goes on has
/// anything to put: it has no packet to forward there that may go, and no acknowledgement is due,
/// but a client's for want of its channel's lifetime; a proxy holds PDUs for the other end's window
/// alone, and an end for a window or the lifetime, or until it is open (MS-RPCH 3.2).
pub fn what_is_not_taken_waits_at_nodes()
    ensures { (before : List Line) (rounds : ℕ) → WaitsWhereQuiet before rounds }
{
    a_quiet_recording_is_at_rest();
    a_recording_tells_all_that_it_keeps();
    settling_ends_legs_in_time::<WorldConfig, ClientRole, ServerRole, InProxyRole, OutProxyRole>();
    lines_end_legs_in_time::<WorldConfig, ClientRole, ServerRole, InProxyRole, OutProxyRole>();
    a_silent_round_leaves_the_world_at_rest::<
        WorldConfig,
        ClientRole,
        ServerRole,
        InProxyRole,
        OutProxyRole,
    >();
    nodes_of_roles_are_steady::<WorldConfig>();
    a_recording_of_roles_is_known::<WorldConfig>();
    proxies_keep_their_pipes();
    a_leg_that_came_up_is_known();
    nothing_is_put_at_rest::<WorldConfig, ClientRole, ServerRole, InProxyRole, OutProxyRole>();
}
