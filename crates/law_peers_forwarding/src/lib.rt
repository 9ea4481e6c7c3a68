//! What a server forwards to the client, and that there is room for it: at the server, and at the
//! out proxies that it passes. The contracts of these functions are the laws.
#![tactic(auto)]

pub mod answers;
pub mod due;
pub mod late;
pub mod lifetimes;
pub mod out_proxies;
pub mod passing;
pub mod server;
pub mod server_full;

pub use answers::{
    a_client_asks_for_one_in_channel_behind_a_wish, an_out_proxy_keeps_answers_before_a_wish,
    answers_come_before_a_wish, one_answer_follows_a_wish,
};
pub use due::one_answer_is_due;
pub use late::few_channels_are_late;
pub use lifetimes::lifetimes_are_long;
pub use out_proxies::{a_server_acknowledges_few_between_answers, an_out_proxy_has_room};
pub use passing::few_answers_pass_an_acknowledgement;
pub use server::a_server_has_room;
pub use server_full::{
    a_server_forwards_what_came, acknowledgements_are_of_late_channels,
    an_acknowledgement_waits_longest, few_channels_are_answered_before_an_acknowledgement,
    few_packets_wait_at_a_server, fifteen_wait_where_there_is_no_room,
    no_more_acknowledgements_wait_than_channels,
};
