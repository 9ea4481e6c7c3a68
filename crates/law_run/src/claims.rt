//! What holds of every recording beside its report. This function does nothing: its contract is
//! the law.

ghost use Rattle.std.specs.Prelude.{List};
ghost use Rattle.rh_record.specs.declared.line.Line.{Line};
ghost use Rattle.law_run.specs.Claims.{Claims};

use law_world_audited::an_audit_of_a_recording_finds_nothing;
use law_world_bodies::no_body_of_a_recording_is_too_long;
use law_world_calm::a_node_of_a_calm_recording_closes_for_an_end;
use law_world_expected::{
    no_node_of_a_recording_lacks_room, no_node_of_a_recording_refuses_what_comes,
    rpc_pdus_of_a_recording_pass_in_turn,
};
use law_world_honest::{
    a_refused_client_of_a_recording_lost_its_server, no_node_of_a_recording_closes_for_bad_bytes,
};
use law_world_order::{every_recording_ends_for_good, every_recording_is_ordered};
use law_world_reports::{
    a_node_of_a_recording_falls_silent, a_recording_counts, a_recording_ends_with_its_last_lines,
    a_recording_names_the_sides_of_its_gives, a_recording_reports_a_node_closed_once,
    an_end_of_a_recording_names_its_cause, an_end_of_a_recording_names_what_was_reported,
    each_cause_of_a_recording_shows, each_close_of_a_recording_is_reported,
    each_close_of_a_recording_shows, only_a_client_of_a_recording_is_refused,
    windows_hold_in_every_recording, windows_hold_throughout_every_recording,
};
use law_world_rest::a_quiet_recording_is_at_rest;
use law_world_waits::what_is_not_taken_waits_at_nodes;
use law_world_ways::{
    a_recording_tells_all_that_it_keeps, a_recording_tells_what_is_on_its_way,
    direct_recordings_keep_all, every_recording_keeps_what_is_on_its_way, recordings_lose_nothing,
};
use law_world_windows::{hops_of_a_recording_are_kept, no_window_closes_a_node_of_a_recording};

/// In every recording what each end takes is what the other end gave, each PDU once and in order,
/// whatever its lines cut, delay, break and replace; a clean end is final. What was given and not
/// taken is on its way, unless a leg is lost, and none is lost where nothing broke and no node
/// closed, and none in a direct recording. No more is held for a channel than its window, and each
/// node is reported as closed once at most, by a line whose answers show why; each later answer of
/// that end names the same cause (MS-RPCH 3.2), and no answer names one that was not reported
/// before. Each node that stands closed was reported so. A node closes only since a leg broke or
/// ended, since its request was refused, or since no byte came for too long; and where no line does
/// any of that, only by settling, since a leg ended. Where a settling is answered quiet, no leg
/// that it looks at can be opened, none carries a byte or ends, and no end takes; and while all
/// nodes go on and no leg was lost but such as were over, what was given and not taken waits at
/// nodes, with none of it on a leg. An audit of the capture of a recording of roles tells no fault,
/// and says yes both ways.
pub fn recordings_keep_to_their_claims()
    ensures { (lines : List Line) → Claims lines }
{
    every_recording_is_ordered();
    every_recording_ends_for_good();
    a_recording_names_the_sides_of_its_gives();
    a_recording_counts();
    a_recording_ends_with_its_last_lines();
    windows_hold_in_every_recording();
    windows_hold_throughout_every_recording();
    hops_of_a_recording_are_kept();
    each_close_of_a_recording_shows();
    each_cause_of_a_recording_shows();
    only_a_client_of_a_recording_is_refused();
    a_refused_client_of_a_recording_lost_its_server();
    no_node_of_a_recording_closes_for_bad_bytes();
    no_node_of_a_recording_refuses_what_comes();
    no_window_closes_a_node_of_a_recording();
    no_body_of_a_recording_is_too_long();
    no_node_of_a_recording_lacks_room();
    a_node_of_a_calm_recording_closes_for_an_end();
    direct_recordings_keep_all();
    every_recording_keeps_what_is_on_its_way();
    a_recording_tells_what_is_on_its_way();
    rpc_pdus_of_a_recording_pass_in_turn();
    recordings_lose_nothing();
    a_recording_tells_all_that_it_keeps();
    a_node_of_a_recording_falls_silent();
    a_recording_reports_a_node_closed_once();
    an_end_of_a_recording_names_its_cause();
    each_close_of_a_recording_is_reported();
    an_end_of_a_recording_names_what_was_reported();
    a_quiet_recording_is_at_rest();
    what_is_not_taken_waits_at_nodes();
    an_audit_of_a_recording_finds_nothing();
}
