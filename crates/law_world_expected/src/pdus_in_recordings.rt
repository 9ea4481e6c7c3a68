//! The RPC PDUs that in proxies put in a recording. This function calls the laws that it stands on:
//! its contract is the law.

ghost use Rattle.std.specs.Prelude.{List};
ghost use Rattle.rh_record.specs.declared.line.Line.{Line};
ghost use Rattle.rh_world.specs.declared.any_world.AnyWorld.TheVariants.{Before};
ghost use Rattle.rh_world.specs.Any.{after};
ghost use Rattle.law_world_expected.specs.PdusInRecordings.{PassesInTurn};

use crate::pdus_in_worlds::rpc_pdus_pass_in_turn;
use law_world_reports::windows_hold_in_a_world_of_roles;
use rh_world::WorldConfig;

/// At every moment of every recording, which is behind any of its lines: no in proxy put an RPC PDU
/// of a later ci leg before IN_R1/A5 came on the ci legs before it, and none stands on an is leg
/// before IN_R1/A6 came at the server on the leg of each IN channel before the one with which that
/// leg begins (MS-RPCH 3.2.1, 3.2.3; successors are this profile's).
pub fn rpc_pdus_of_a_recording_pass_in_turn()
    ensures { (before : List Line) → PassesInTurn (after Before before) }
{
    windows_hold_in_a_world_of_roles();
    rpc_pdus_pass_in_turn::<WorldConfig>();
}
