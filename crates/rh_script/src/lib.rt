//! Scripts: lines that tell one node what comes to it and ask what it answers, and how they are
//! read.
#![tactic(auto)]

pub mod reading;
pub mod script;
pub mod step;
mod verb;
pub mod words;

pub use reading::{StepRefused, read_step};
pub use script::Script;
pub use step::{Act, Ask, Cut, Loss, Naming, Part, Step};
pub use words::Words;
