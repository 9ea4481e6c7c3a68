//! What an audit tells of the capture of a recording of roles.
#![tactic(auto)]

pub mod far_legs_down;
pub mod far_legs_up;
pub mod faults;
pub mod legs_in_chains;
pub mod sides;
pub mod what_moved;
pub mod whole_audits;

pub use far_legs_down::what_went_down_is_a_front;
pub use far_legs_up::what_went_up_is_a_front;
pub use faults::an_audit_of_a_recording_tells_no_fault;
pub use legs_in_chains::the_chains_of_a_recording_have_all_legs;
pub use sides::what_is_joined_was_put_on_legs;
pub use what_moved::{
    a_capture_has_what_moved, a_recording_tells_what_moved, no_stream_of_a_recording_is_broken,
    what_moved_is_a_stream, what_moved_is_of_what_was_put,
};
pub use whole_audits::an_audit_of_a_recording_finds_nothing;
