//! Lines end a leg only where it is over, unless they break or end it themselves. Its functions do
//! nothing: their contracts are the laws.

pub mod lines;
pub mod recordings;
pub mod settling;

pub use lines::lines_end_legs_in_time;
pub use recordings::recordings_end_legs_in_time;
pub use settling::settling_ends_legs_in_time;
