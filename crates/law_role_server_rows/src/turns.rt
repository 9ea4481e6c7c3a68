//! What a server puts on its legs, in which order, and for what. Its functions do nothing: their
//! contracts are the laws.

pub mod acks;
pub mod channels;
pub mod in_legs;
pub mod numbers;

pub use acks::a_server_passes_acks_on_their_leg;
pub use channels::a_server_writes_on_channels_that_began;
pub use in_legs::a_server_answers_in_proxies_in_order;
pub use numbers::a_server_has_numbers_for_out_channels;
