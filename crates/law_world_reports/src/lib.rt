//! What a report tells of histories: gives, takes, closes, counts, windows.
#![tactic(auto)]

pub mod bounds;
pub mod close_lines;
pub mod closes;
pub mod named;
pub mod ordered;
pub mod throughout;
pub mod told;
pub mod told_histories;

pub use bounds::{windows_hold_in_a_world_of_roles, windows_hold_in_every_recording};
pub use close_lines::{
    an_end_of_a_recording_names_what_was_reported, each_close_of_a_recording_is_reported,
};
pub use closes::{
    a_node_of_a_recording_falls_silent, a_recording_reports_a_node_closed_once,
    each_cause_of_a_recording_shows, each_close_of_a_recording_shows, each_close_shows,
    only_a_client_of_a_recording_is_refused, what_a_line_tells_shows,
};
pub use named::{a_closed_end_names_its_cause, an_end_of_a_recording_names_its_cause};
pub use ordered::{
    a_client_gives_until_it_is_told_to_close, a_client_that_closes_was_told, a_recording_counts,
    a_recording_ends_for_good, a_recording_ends_with_its_last_lines, a_recording_is_ordered,
    a_recording_names_the_sides_of_its_gives, a_report_counts, a_report_ends_for_good,
    a_report_is_ordered, a_server_gives_until_it_is_told_to_close, a_server_that_closes_was_told,
};
pub use throughout::windows_hold_throughout_every_recording;
pub use told::{
    a_report_tells_what_was_given_and_taken, nothing_is_told_of_a_closed_end,
    the_history_of_an_end_goes_on, what_a_closed_end_takes_and_gives,
    what_passes_no_more_is_not_told,
};
pub use told_histories::a_recording_tells_its_history;
