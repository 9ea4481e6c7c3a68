//! What a server has room for: the acknowledgements that come to be forwarded to the client. Its
//! functions do nothing: their contracts are the laws.

pub mod few;
pub mod filled;
pub mod keeping;
pub mod numbered;
pub mod oldest;
pub mod taken;

pub use few::no_more_acknowledgements_wait_than_channels;
pub use filled::{few_packets_wait_at_a_server, fifteen_wait_where_there_is_no_room};
pub use keeping::a_server_forwards_what_came;
pub use numbered::acknowledgements_are_of_late_channels;
pub use oldest::an_acknowledgement_waits_longest;
pub use taken::few_channels_are_answered_before_an_acknowledgement;
