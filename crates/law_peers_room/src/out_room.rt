//! An out proxy has room for what it is to forward to its client. The contracts of its functions
//! are the laws.

pub mod room;
pub mod waiting;

pub use room::{an_out_proxy_has_room_to_forward, what_goes_round_passes_an_out_proxy_one_by_one};
pub use waiting::what_waits_at_an_out_proxy;
