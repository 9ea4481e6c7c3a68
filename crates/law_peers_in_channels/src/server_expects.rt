//! What a server expects: at each moment of a virtual connection it refuses nothing that comes next
//! from its proxies as unexpected, or for its cookie. Its functions do nothing: their contracts are
//! the laws.

pub mod expects;
pub mod in_proxies;
pub mod pings;

pub use expects::{a_server_expects_all_but_successors, a_server_expects_its_out_proxies};
pub use in_proxies::{an_in_proxy_connects_as_it_was_asked, an_in_proxy_in_turn_puts_in_order};
pub use pings::no_ping_goes_first_to_a_server;
