//! No node closes for bad bytes; why a client is refused.
#![tactic(auto)]

pub mod honest;
pub mod refused;
pub mod world_asked;

pub use honest::{
    a_piece_that_reads_well_closes_for_the_role, heads_that_are_heard_break_no_rule,
    no_change_closes_a_node_for_bad_bytes, no_node_of_a_recording_closes_for_bad_bytes,
    rows_refuse_values_of_acknowledgements, what_is_fed_closes_for_the_role,
    what_is_heard_reads_well, what_is_heard_well_closes_for_the_role,
};
pub use refused::{
    a_client_refused_with_503_lost_its_server, a_refused_client_heard_what_was_drawn,
    a_refused_client_lost_its_server, a_refused_client_of_a_recording_lost_its_server,
    a_refused_in_channel_was_refused_by_its_proxy, a_refused_out_channel_was_refused_by_its_proxy,
    what_a_client_holds_of_a_head,
};
pub use world_asked::{
    an_out_proxy_hears_its_clients_request, an_out_proxy_of_a_world_expects_its_client,
    an_out_proxy_reads_frames_behind_a_request, frames_come_to_an_out_proxy_behind_a_request,
    what_comes_to_a_client_has_a_name,
};
