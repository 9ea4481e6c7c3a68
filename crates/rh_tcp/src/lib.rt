//! The real outside: legs over TCP, standard input, the system's clock, and its random source.
//!
//! A few lines each over std and `mio`. No clause says what the system does; what is proved is that each
//! failure and each end is counted.
#![tactic(auto)]

pub mod clock;
pub mod cookies;
pub mod input;
pub mod leg;
pub mod net;
pub mod way;

pub use clock::SystemClock;
pub use cookies::RandomCookies;
pub use input::StdInput;
pub use leg::{StreamSink, TcpSink, TcpSource};
pub use net::{TcpNet, WRITE_WAIT};
pub use way::{ACCEPT_WAIT, TcpCame, TcpWay};
