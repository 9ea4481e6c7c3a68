//! What a client asks for, and what is answered, behind the wish for a successor of an OUT
//! channel. The contracts of its functions are the laws.

pub mod moments;
pub mod passing;
pub mod wishes;

pub use moments::{answers_come_before_a_wish, one_answer_follows_a_wish};
pub use passing::an_out_proxy_keeps_answers_before_a_wish;
pub use wishes::a_client_asks_for_one_in_channel_behind_a_wish;
