//! What a leg's bytes are read as at its end, whatever role it has: what was put on a leg is read
//! there as what was put. Its functions do nothing: their contracts are the laws.

mod coming;
mod reading;
mod texts;
mod well;

pub use coming::{of_a_refusal_nothing_comes, what_comes_was_put};
pub use reading::{all_that_was_put_is_read, what_is_read_is_fine, what_was_put_is_read};
pub use texts::{heads_have_no_messages, texts_are_whole};
pub use well::{
    a_packet_that_may_go_is_read, a_piece_reads_well, texts_read_well, what_was_put_reads_well,
};
