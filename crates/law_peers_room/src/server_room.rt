//! What a server has to forward to the client: which channels an in proxy acknowledges, and when.
//! Its functions do nothing: their contracts are the laws.

pub mod acks;
pub mod answered;
pub mod forwarding;
pub mod overtaking;
pub mod owning;

pub use acks::an_in_proxy_acknowledges_in_order;
pub use answered::in_channels_are_answered_before_they_are_acknowledged;
pub use forwarding::what_a_server_forwards;
pub use overtaking::few_answers_overtake_an_acknowledgement;
pub use owning::acknowledgements_have_their_legs;
