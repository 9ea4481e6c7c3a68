//! Recordings at rest. This function does nothing: its contract is the law.

ghost use Rattle.std.specs.Prelude.{List, ℕ};
ghost use Rattle.rh_record.specs.declared.line.Line.{Line};
ghost use Rattle.rh_world.specs.declared.any_world.AnyWorld.TheVariants.{Before};
ghost use Rattle.rh_world.specs.Any.{after};
ghost use Rattle.law_world_rest.specs.Recordings.{RestsWhereQuiet};

use crate::rounds::a_silent_round_leaves_the_world_at_rest;
use crate::steady::nodes_of_roles_are_steady;
use law_world_ways::{lines_end_legs_in_time, settling_ends_legs_in_time};
use rh_client::ClientRole;
use rh_inproxy::InProxyRole;
use rh_outproxy::OutProxyRole;
use rh_server::ServerRole;
use rh_world::WorldConfig;

/// Behind any lines of a recording, a `settle` line that is answered quiet leaves the world at
/// rest: no leg that a settling looks at can be opened, none carries a byte or ends, and no end
/// takes a PDU or is told for the first time that no more come.
pub fn a_quiet_recording_is_at_rest()
    ensures { (before : List Line) (rounds : ℕ) → RestsWhereQuiet (after Before before) rounds }
{
    nodes_of_roles_are_steady::<WorldConfig>();
    a_silent_round_leaves_the_world_at_rest::<
        WorldConfig,
        ClientRole,
        ServerRole,
        InProxyRole,
        OutProxyRole,
    >();
    settling_ends_legs_in_time::<WorldConfig, ClientRole, ServerRole, InProxyRole, OutProxyRole>();
    lines_end_legs_in_time::<WorldConfig, ClientRole, ServerRole, InProxyRole, OutProxyRole>();
}
