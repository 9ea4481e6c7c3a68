//! Of each node that a report tells closed, why: what closed it shows in the answers of the line.
//! Its functions do nothing: their contracts are the laws.

pub mod licences;
pub mod recordings;
pub mod shows;

pub use licences::each_close_shows;
pub use recordings::{
    a_node_of_a_recording_falls_silent, a_recording_reports_a_node_closed_once,
    each_cause_of_a_recording_shows, each_close_of_a_recording_shows,
    only_a_client_of_a_recording_is_refused,
};
pub use shows::what_a_line_tells_shows;
