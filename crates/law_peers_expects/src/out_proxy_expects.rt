//! At each moment of a virtual connection an out proxy refuses nothing that comes next as
//! unexpected, or for its cookie. The contracts of its functions are the laws.

pub mod early;
pub mod expects;
pub mod in_proxies;

pub use early::no_server_is_early;
pub use expects::an_out_proxy_expects_its_server;
pub use in_proxies::an_in_proxy_puts_quietly;
