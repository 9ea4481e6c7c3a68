//! In proxies take what comes next. Its functions do nothing of their own: their contracts are the
//! laws.

pub mod announcing;
pub mod expecting;
pub mod legs;
pub mod opening;

pub use announcing::an_in_proxy_announces_what_came;
pub use expecting::an_in_proxy_expects_what_comes;
pub use legs::an_in_proxys_legs_came_up;
pub use opening::no_client_is_opened_early;
