//! The chains of a recording of roles. This function calls the laws that it stands on: its contract
//! is the law.

ghost use Rattle.std.specs.Prelude.{List, ◌∷◌, true};
ghost use Rattle.rh_record.specs.declared.line.Line.{Line};
ghost use Rattle.rh_record.specs.declared.line.Line.TheVariants.{First};
ghost use Rattle.law_world_audited.specs.LegsInChains.Chained.{TellsChainsOf};

use crate::what_moved::{a_capture_has_what_moved, what_moved_is_a_stream};
use law_audit::{
    no_bytes_are_no_frames, successors_stand_in_a_chain, what_is_put_is_seen,
    where_no_tag_is_left_none_is_told,
};
use law_node_history::cookies_of_lines_differ;
use law_node_traces::a_recording_of_roles_is_known;
use law_peers_chains::{each_leg_replaces_the_one_before_it, what_is_read_is_whole};
use law_world_order::cookies_are_drawn_for_channels;
use rh_client::ClientRole;
use rh_inproxy::InProxyRole;
use rh_outproxy::OutProxyRole;
use rh_server::ServerRole;
use rh_world::WorldConfig;

/// In the capture of a recording of roles, behind any lines, whatever they cut, break and replace:
/// the chain of each kind has all legs whose first packet is there, in the order of their numbers;
/// no tag is left; and a leg has its first packet there only where the leg of the channel before
/// has (profile).
pub fn the_chains_of_a_recording_have_all_legs()
    ensures { (behind : List Line) → TellsChainsOf (First true ∷ behind) }
{
    no_bytes_are_no_frames();
    what_is_put_is_seen();
    successors_stand_in_a_chain();
    where_no_tag_is_left_none_is_told();
    cookies_of_lines_differ::<WorldConfig, ClientRole, ServerRole, InProxyRole, OutProxyRole>();
    a_recording_of_roles_is_known::<WorldConfig>();
    each_leg_replaces_the_one_before_it();
    what_is_read_is_whole();
    a_capture_has_what_moved();
    what_moved_is_a_stream();
    cookies_are_drawn_for_channels::<WorldConfig>();
}
