//! What the client of a world of roles asks of its out proxies, and what comes to it then. Its
//! functions only call the laws that they stand on: their contracts are the laws.

pub mod expects;
pub mod heads;
pub mod names;
pub mod nodes;

pub use expects::an_out_proxy_of_a_world_expects_its_client;
pub use heads::an_out_proxy_hears_its_clients_request;
pub use names::what_comes_to_a_client_has_a_name;
pub use nodes::{
    an_out_proxy_reads_frames_behind_a_request, frames_come_to_an_out_proxy_behind_a_request,
};
