//! What the proxies put first on each leg, what they read there, and where they refuse their
//! clients. Its functions do nothing: their contracts are the laws.

pub mod in_proxy;
pub mod out_proxy;
pub mod pipes;

pub use in_proxy::{
    an_in_proxy_answers_echoes_alone, an_in_proxy_begins, an_in_proxy_refuses_first,
    what_an_in_proxy_puts_first_reads_well,
};
pub use out_proxy::{
    an_out_proxy_begins, an_out_proxy_refuses_first, what_an_out_proxy_puts_first_reads_well,
};
pub use pipes::proxies_keep_their_pipes;
