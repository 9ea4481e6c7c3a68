//! The hops of recordings at rest. This function does nothing: its contract is the law.

ghost use Rattle.std.specs.Prelude.{List, ℕ};
ghost use Rattle.rh_record.specs.declared.line.Line.{Line};
ghost use Rattle.rh_world.specs.declared.any_world.AnyWorld.TheVariants.{Before};
ghost use Rattle.rh_world.specs.Any.{after};
ghost use Rattle.law_world_known.specs.Recordings.{KnownWhereQuiet};

use law_moves::all_that_was_put_is_read;
use law_node_begins::proxies_keep_their_pipes;
use law_node_traces::a_recording_of_roles_is_known;
use law_role_bytes::{
    a_server_counts_what_it_receives, a_server_counts_what_it_sends,
    an_in_proxy_counts_what_it_sends, an_in_proxy_knows_of_a_window_that_was_told,
    an_out_proxy_counts_what_it_receives,
};
use law_role_edges::{
    an_in_proxy_knows_what_the_server_told, an_out_proxy_told_what_its_window_told,
};
use law_role_server_edges::{
    a_server_knows_what_out_proxies_told, a_server_told_what_its_window_told,
};
use law_world_order::what_is_put_is_legible;
use law_world_rest::{
    a_quiet_recording_is_at_rest, a_silent_round_leaves_the_world_at_rest,
    nodes_of_roles_are_steady,
};
use law_world_waits::nothing_is_put_at_rest;
use law_world_ways::{
    a_leg_that_came_up_is_known, lines_end_legs_in_time, settling_ends_legs_in_time,
    what_comes_is_read,
};
use rh_client::ClientRole;
use rh_inproxy::InProxyRole;
use rh_outproxy::OutProxyRole;
use rh_server::ServerRole;
use rh_world::WorldConfig;

/// Behind any lines of a recording, where a `settle` line is answered quiet: on the leg between the
/// server and the in proxy of its current channel, and on each leg that it keeps to an out proxy,
/// if the leg is up and both nodes go on, all RPC PDUs came that were sent there. And once the
/// window of the hop was told, its sender knows all that its receiver told (MS-RPCH 3.2).
pub fn hops_to_the_server_are_known_at_rest()
    ensures { (before : List Line) (rounds : ℕ) → KnownWhereQuiet (after Before before) rounds }
{
    all_that_was_put_is_read();
    proxies_keep_their_pipes();
    a_recording_of_roles_is_known::<WorldConfig>();
    a_server_counts_what_it_receives();
    a_server_counts_what_it_sends();
    an_in_proxy_counts_what_it_sends();
    an_in_proxy_knows_of_a_window_that_was_told();
    an_out_proxy_counts_what_it_receives();
    an_in_proxy_knows_what_the_server_told();
    an_out_proxy_told_what_its_window_told();
    a_server_knows_what_out_proxies_told();
    a_server_told_what_its_window_told();
    what_is_put_is_legible::<WorldConfig>();
    a_quiet_recording_is_at_rest();
    a_silent_round_leaves_the_world_at_rest::<
        WorldConfig,
        ClientRole,
        ServerRole,
        InProxyRole,
        OutProxyRole,
    >();
    nodes_of_roles_are_steady::<WorldConfig>();
    nothing_is_put_at_rest::<WorldConfig, ClientRole, ServerRole, InProxyRole, OutProxyRole>();
    a_leg_that_came_up_is_known();
    lines_end_legs_in_time::<WorldConfig, ClientRole, ServerRole, InProxyRole, OutProxyRole>();
    settling_ends_legs_in_time::<WorldConfig, ClientRole, ServerRole, InProxyRole, OutProxyRole>();
    what_comes_is_read::<WorldConfig>();
}
