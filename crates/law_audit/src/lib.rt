//! What an audit tells of lists: streams that are cut anywhere, chains of legs, and what legs of
//! two kinds carry. Its functions do nothing: their contracts are the laws.
#![tactic(auto)]

pub mod laws_of_chains;
pub mod laws_of_order;
pub mod laws_of_streams;
pub mod views_of_roles;
pub mod what_chains_carry;

pub use laws_of_chains::{successors_stand_in_a_chain, where_no_tag_is_left_none_is_told};
pub use laws_of_order::what_is_seen_far_was_seen_near;
pub use laws_of_streams::{
    no_bytes_are_no_frames, no_front_is_broken, refusals_are_no_frames, what_is_put_is_a_stream,
    what_is_put_is_seen, written_texts_are_fine,
};
pub use views_of_roles::what_roles_see_fits;
pub use what_chains_carry::{frames_are_items, what_is_seen_far_is_a_front};
