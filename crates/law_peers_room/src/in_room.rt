//! An in proxy never has too little room for what it forwards. Its functions do nothing of their
//! own: their contracts are the laws.

pub mod clients;
pub mod in_proxies;
pub mod room;

pub use clients::a_client_acknowledges_what_is_near;
pub use in_proxies::what_waits_in_an_in_proxy_came_in_turn;
pub use room::an_in_proxy_has_room;
