//! What happens to a world of roles, in small changes: what each node is told, and what each leg
//! carries. Its functions do nothing: their contracts are the laws.
#![tactic(auto)]

pub mod changing;
pub mod closes;
pub mod cookies;
pub mod histories;
pub mod legs;
pub mod standing;

pub use changing::{
    a_half_step_is_changes, a_line_is_changes, lines_are_changes, lines_make_changes_of_lines,
    what_carries_is_quiet,
};
pub use closes::{
    a_closed_end_tells_its_cause, a_closed_proxy_names_its_cause, a_node_closes_once,
    a_node_is_reported_closed_once, what_is_reported_closed_was_closed,
    what_is_to_be_reported_has_closed,
};
pub use cookies::cookies_of_lines_differ;
pub use histories::each_node_is_what_its_history_made;
pub use legs::{a_leg_is_read_at_its_ends, legs_are_carried, what_is_heard_was_drawn};
pub use standing::what_stands_closed_was_closed;
