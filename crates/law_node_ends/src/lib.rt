//! When a role gives no more, has no use for a leg, and behind which mark.
#![tactic(auto)]

pub mod leaving;
pub mod passing;
pub mod stopping;

pub use leaving::{
    a_leg_that_a_client_left_stays_unused, a_leg_that_a_server_left_stays_unused,
    a_leg_that_an_in_proxy_left_stays_unused, a_leg_that_an_out_proxy_left_stays_unused,
};
pub use passing::{
    a_server_is_done_behind_a_mark, an_in_proxy_is_done_behind_a_mark_or_end,
    an_in_proxy_puts_a_mark, an_out_proxy_is_done_behind_a_mark, an_out_proxy_puts_a_mark,
};
pub use stopping::{
    a_client_that_closes_gives_no_more, a_server_that_closes_gives_no_more,
    a_take_that_ends_has_nothing_left, takes_that_end_report_the_end,
};
