//! What a client asks of an out proxy by its request, and what the proxy does then: it answers no
//! echo, and expects what the client puts. The contracts of its functions are the laws.

pub mod echoes;

pub use echoes::{an_out_proxy_answers_echoes_alone, what_an_out_proxy_serves_reads_well};
