//! Clocks, cookies and addresses.

use rh_net::*;
use std::test::*;

#[test]
fn a_memory_clock_goes_on_by_its_step_and_stays_at_its_end(rt: HostRuntime) {
    let mut clock = MemClock::new(u64::MAX - 15, 10);
    for now in [u64::MAX - 15, u64::MAX - 5, u64::MAX, u64::MAX] {
        assert_eq!(rt; clock.now(), now);
    }
}

#[test]
fn cookies_count_and_a_call_that_fails_uses_up_none(rt: HostRuntime) -> Result<(), Fail> {
    let mut cookies = CountCookies::new(Vec::from_slice(rt.alloc(), &[2, 3])?);
    let first = [0, 0, 0, 0, 0, 0, 0, 0, 0, 0, 0, 0, 0, 0, 0, 1];
    let second = [0, 0, 0, 0, 0, 0, 0, 0, 0, 0, 0, 0, 0, 0, 0, 2];
    // What a call answers, and the count of failures behind it.
    for called in [
        (Ok(first), 0),
        (Err(CookieFailed), 1),
        (Err(CookieFailed), 2),
        (Ok(second), 2),
    ] {
        assert_eq!(rt; (cookies.next(), cookies.faults()), called);
    }
    Ok(())
}

#[test]
fn an_address_has_a_host_of_1_to_255_bytes(rt: HostRuntime) {
    let address = Address::new(b"server", 593);
    assert_eq!(rt; address.map(|a| a.port), Some(593));
    let Some(address) = address else { return };
    assert_eq!(rt; address.host(), b"server".as_slice());
    assert_eq!(rt; Address::new(b"", 593), None);
    assert!(rt; Address::new(&[b'a'; 255], 593).is_some());
    assert_eq!(rt; Address::new(&[b'a'; 256], 593), None);
}
