//! Why a client closes with `HttpRefused`: what it heard is a refusal that the proxy drew. Its
//! functions do nothing: their contracts are the laws.

pub mod clients;
pub mod recordings;
pub mod reports;

pub use clients::what_a_client_holds_of_a_head;
pub use recordings::{
    a_client_refused_with_503_lost_its_server, a_refused_client_heard_what_was_drawn,
    a_refused_client_lost_its_server, a_refused_in_channel_was_refused_by_its_proxy,
    a_refused_out_channel_was_refused_by_its_proxy,
};
pub use reports::a_refused_client_of_a_recording_lost_its_server;
