//! What roles and worlds share: legs, causes and states with their texts, the queue of an end, the
//! PDU begun and drawing bytes, a receiver's line of two channels, and refusals.
#![tactic(auto)]

pub mod begun;
pub mod cause;
mod channel;
pub mod give_fault;
pub mod laws;
pub mod leg;
pub mod line_fault;
pub mod line_take;
pub mod numerals;
mod pdu_ring;
pub mod recv_line;
pub mod recycle_fault;
pub mod send_line;
pub mod state;
pub mod texts;
pub mod which;

pub use begun::{BegunPdu, draw};
pub use cause::Cause;
pub use give_fault::GiveFault;
pub use laws::{
    all_was_taken_or_is_held, ends_are_kept, held_bytes_are_within_windows, histories_are_of_lines,
    lines_keep_order, lines_keep_to_their_windows,
};
pub use leg::{LAST_NUMBER, Leg, LegKind};
pub use line_fault::LineFault;
pub use line_take::LineTake;
pub use numerals::numbers_are_fixed;
pub use recv_line::RecvLine;
pub use recycle_fault::RecycleFault;
pub use rh_text::{Dir, Side};
pub use send_line::{QUEUE_BYTES, SendLine};
pub use state::{State, Take, Verdict};
pub use texts::{write_cause, write_leg};
pub use which::Which;
