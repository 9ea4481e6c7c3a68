//! The words of the program, without the program: what asks for each, what it reads and writes, and
//! how it ends; and the top call, which may carry what is claimed of all recordings.
#![tactic(auto)]

pub mod capture;
pub mod claims;
pub mod form;
pub mod help;
pub mod in_memory;
pub mod play;
pub mod program;
pub mod replay;
pub mod retelling;
pub mod running;
pub mod status;
pub mod story;
pub mod telling;

pub use capture::Capture;
pub use claims::{Claims, Plain};
pub use form::{Form, form_of};
pub use help::HELP;
pub use in_memory::run_in_memory;
pub use play::Play;
pub use program::run_program;
pub use replay::Replay;
pub use retelling::Retelling;
pub use rh_generate::make;
pub use rh_made::{MakeCount, Summary, pdu, write_summary};
pub use rh_packet_words::{Name, Show};
pub use rh_word::{Ended, Word, answer, numbers_are_fixed};
pub use running::{VERSION, run};
pub use status::Status;
pub use story::{HexStoryWord, StoryWord};
pub use telling::{tell, tell_summary};
