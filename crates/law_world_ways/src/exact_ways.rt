//! What is on its way in a world of roles, exactly. Its functions do nothing: their contracts are
//! the laws.

pub mod client;
pub mod going;
pub mod heads;
pub mod keeping;
pub mod routes;
pub mod unlost;

pub use client::a_client_whose_work_is_done_gave_and_took_all;
pub use going::legs_that_go_on_lose_nothing;
pub use heads::no_head_that_comes_asks_for_an_echo;
pub use keeping::{a_leg_of_use_is_kept, a_leg_that_came_up_is_known};
pub use routes::{nothing_is_put_behind_an_end, pdus_on_all_legs_are_on_their_way};
pub use unlost::what_no_leg_lost_is_on_its_way;
