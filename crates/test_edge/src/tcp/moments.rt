//! The clock and the cookies of the system.

use rh_net::{Clock, Cookies};
use rh_tcp::*;
use std::test::*;
use std::thread;
use std::time::Duration;

#[test]
fn finds_a_clock_in_seconds(rt: HostRuntime) -> Result<(), Fail> {
    let mut clock = SystemClock::new(rt)?;
    let first = clock.now();
    thread::sleep(&rt, Duration::from_millis(30));
    let second = clock.now();
    assert!(rt; first < 10_000, "{first}");
    assert!(rt;
        first + 30 <= second && second < first + 10_000,
        "{first} {second}"
    );
    Ok(())
}

#[test]
fn finds_cookies_of_zeros(rt: HostRuntime) {
    let mut cookies = RandomCookies::new(rt);
    let first = cookies.next();
    assert!(rt; first.is_ok() && first != Ok([0; 16]));
    assert_ne!(rt; first, cookies.next());
}
