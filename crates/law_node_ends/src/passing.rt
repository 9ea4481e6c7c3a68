//! The legs for which a proxy or a server has no more use: the handover mark or END came there. Its
//! functions do nothing: their contracts are the laws.

pub mod proxies;
pub mod server;

pub use proxies::{
    an_in_proxy_is_done_behind_a_mark_or_end, an_in_proxy_puts_a_mark,
    an_out_proxy_is_done_behind_a_mark, an_out_proxy_puts_a_mark,
};
pub use server::a_server_is_done_behind_a_mark;
