//! What is on its way; that nothing is lost where nothing broke.
#![tactic(auto)]

pub mod direct_ways;
pub mod ends_in_time;
pub mod exact_paths;
pub mod exact_ways;
pub mod live_intakes;
pub mod marks_put;
pub mod paths;
pub mod told_exactly;
pub mod told_ways;

pub use direct_ways::direct_recordings_keep_all;
pub use ends_in_time::{
    lines_end_legs_in_time, recordings_end_legs_in_time, settling_ends_legs_in_time,
};
pub use exact_paths::{
    recordings_lose_nothing, what_is_lost_in_time_had_passed, what_was_given_is_taken_or_on_its_way,
};
pub use exact_ways::{
    a_client_whose_work_is_done_gave_and_took_all, a_leg_of_use_is_kept,
    a_leg_that_came_up_is_known, legs_that_go_on_lose_nothing, no_head_that_comes_asks_for_an_echo,
    nothing_is_put_behind_an_end, pdus_on_all_legs_are_on_their_way,
    what_no_leg_lost_is_on_its_way,
};
pub use live_intakes::{
    no_bytes_that_come_ask_for_an_echo, what_a_node_keeps_is_read, what_comes_is_read,
};
pub use marks_put::{a_client_puts_a_mark, a_server_puts_a_mark};
pub use paths::{
    every_recording_keeps_what_is_on_its_way, legs_in_use_lose_nothing, nothing_on_its_way_is_lost,
    what_stands_on_a_leg_is_read_in_its_bytes, what_was_forgotten_was_drawn,
};
pub use told_exactly::a_recording_tells_all_that_it_keeps;
pub use told_ways::a_recording_tells_what_is_on_its_way;
