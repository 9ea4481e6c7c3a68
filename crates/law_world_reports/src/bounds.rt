//! What the nodes of a recording hold. These functions do nothing: their contracts are the laws.

ghost use Rattle.std.specs.Prelude.{◌≡◌, List};
ghost use Rattle.rh_record.specs.declared.line.Line.{Line};
ghost use Rattle.law_node_history.specs.Changes.{Leads, Turn, after_turns};
ghost use Rattle.rh_world.specs.declared.any_world.AnyWorld.TheVariants.{Before, Settings};
ghost use Rattle.rh_world.specs.declared.config.WorldConfig.{WorldConfig};
ghost use Rattle.rh_world.specs.Config.{AreInRange};
ghost use Rattle.rh_world.specs.Roles as roles;
ghost use Rattle.rh_world.specs.Any.{after};
ghost use Rattle.law_world_reports.specs.Bounded.{HoldWindows, WindowsHold};

use law_role_windows::{
    what_a_client_holds, what_a_server_holds, what_an_in_proxy_holds, what_an_out_proxy_holds,
};

/// Whatever happens in a world of roles, change by change, each node holds at most its window: in
/// the midst of a line, of a settling or of a half step too, and so behind lines and half steps in
/// any order. The windows are those that the world began with.
pub fn windows_hold_in_a_world_of_roles()
    ensures cast { (config : WorldConfig) (world : roles.World)
        → Leads roles.rules roles.makers roles.deeds (roles.begun config) world
        → world.cast ≡ config }
    ensures windows { (config : WorldConfig) (world : roles.World) → AreInRange config
        → Leads roles.rules roles.makers roles.deeds (roles.begun config) world
        → HoldWindows world }
    ensures turns { (config : WorldConfig) (turns : List Turn) → AreInRange config
        → HoldWindows
        (after_turns roles.rules roles.makers roles.deeds (roles.begun config) turns) }
{
    what_a_client_holds();
    what_a_server_holds();
    what_an_in_proxy_holds();
    what_an_out_proxy_holds();
}

/// Behind any lines of a recording, and so behind each front of it, each node of a world of roles
/// holds at most its window; also where the lines follow other settings, each in its range.
pub fn windows_hold_in_every_recording()
    ensures recording { (lines : List Line) → WindowsHold (after Before lines) }
    ensures settings { (config : WorldConfig) (lines : List Line) → AreInRange config
        → WindowsHold (after (Settings config) lines) }
{
    windows_hold_in_a_world_of_roles();
}
