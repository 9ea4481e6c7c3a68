//! Where the legs of chains are those of a route, an audit says yes.

pub mod fronts;
pub mod items;

pub use fronts::what_is_seen_far_is_a_front;
pub use items::frames_are_items;
