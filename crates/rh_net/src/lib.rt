//! What a node sees of the outside beside plain streams: nets that give legs, clocks and sources of
//! cookies, each counting its failures, and their forms in memory.
#![tactic(auto)]

pub mod address;
pub mod clock;
pub mod cookies;
pub mod counts;
pub mod failing;
pub mod in_memory;
pub mod net;
pub mod numerals;
pub mod ready;
pub mod script;
pub mod shut;
pub mod way;

pub use address::Address;
pub use clock::{Clock, MemClock};
pub use cookies::{CookieFailed, Cookies, CountCookies};
pub use counts::NetCounts;
pub use failing::FailingCalls;
pub use in_memory::{
    Board, Caller, Callers, Calling, Found, LegFails, MemNet, PIPE_ROOM, Pipe, PipeSink,
    PipeSource, Put, Side,
};
pub use net::{Net, NetFailed};
pub use numerals::numbers_are_fixed;
pub use ready::Ready;
pub use script::{ScriptNet, ScriptSink, ScriptSource, TakenBack};
pub use shut::{ShutSink, ShutSource};
pub use way::{MemWay, NetCall, Way};
