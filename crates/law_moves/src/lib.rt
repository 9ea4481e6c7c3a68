//! What a node does to its role, whatever happens there. These functions do nothing: their contracts
//! are the laws.
#![tactic(auto)]

pub mod laws;
pub mod merging;
pub mod moving;
pub mod reading;
pub mod reading_back;
pub mod wires;

pub use laws::{cuts_change_nothing, first_cause_is_kept};
pub use merging::{edges_never_fall, one_waits_of_each};
pub use moving::{
    Keeps, ends_move_by_their_rules, frames_are_taken_in_order, messages_are_drawn_in_order,
    roles_move_by_their_rules, what_is_logged_passed_at_an_end, what_is_logged_passed_on_a_leg,
    what_moves_keep_events_keep,
};
pub use reading::{
    a_packet_that_may_go_is_read, a_piece_reads_well, all_that_was_put_is_read,
    heads_have_no_messages, of_a_refusal_nothing_comes, texts_are_whole, texts_read_well,
    what_comes_was_put, what_is_read_is_fine, what_was_put_is_read, what_was_put_reads_well,
};
pub use reading_back::{what_may_go_reads_back, what_was_read_is_fine};
pub use wires::{frames_are_carried, puts_are_carried};
