//! The heads of HTTP messages that open channels (MS-RPCH 2.1.2, RFC 9112): reading and writing
//! them.
#![tactic(auto)]

pub mod config;
pub mod end;
pub mod fault;
pub mod got;
pub mod heads_judged;
pub mod host;
pub mod lengths;
mod names;
mod numbers;
pub mod numerals;
mod pieces;
mod reading;
pub mod refusal;
pub mod request;
pub mod response;
mod target;
pub mod writing;

pub use config::{ClientConfig, KEEPALIVE};
pub use end::HeadEnd;
pub use fault::{HostFault, HttpFault};
pub use got::Got;
pub use heads_judged::{judge_request, judge_response};
pub use host::Host;
pub use numerals::numbers_are_fixed;
pub use refusal::Refusal;
pub use request::{Request, read_request};
pub use response::{Response, read_response};
pub use writing::{
    write_echo, write_in_request, write_out_request, write_out_response, write_refusal,
};
