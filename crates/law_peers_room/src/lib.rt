//! What waits to be forwarded, at each role.
#![tactic(auto)]

pub mod in_room;
pub mod out_room;
pub mod server_room;

pub use in_room::{
    a_client_acknowledges_what_is_near, an_in_proxy_has_room,
    what_waits_in_an_in_proxy_came_in_turn,
};
pub use out_room::{
    an_out_proxy_has_room_to_forward, what_goes_round_passes_an_out_proxy_one_by_one,
    what_waits_at_an_out_proxy,
};
pub use server_room::{
    acknowledgements_have_their_legs, an_in_proxy_acknowledges_in_order,
    few_answers_overtake_an_acknowledgement, in_channels_are_answered_before_they_are_acknowledged,
    what_a_server_forwards,
};
