//! Cookies from the system's random source.

ghost use Rattle.std.specs.Prelude.{◌≡◌, None};

use rh_net::{CookieFailed, Cookies};
use std::random::RandomSource;

/// Cookies of 16 random bytes. It tells none.
#[derive(Clone, Copy)]
pub struct RandomCookies<R: RandomSource + Copy> {
    rt: R,
    faults: u64,
}

impl<R: RandomSource + Copy> RandomCookies<R> {
    /// Cookies from the random source of `rt`.
    pub fn new(rt: R) -> RandomCookies<R>
        ensures { ⟦<RandomCookies<R> as Cookies>⟧.faults result ≡ 0 }
    {
        RandomCookies { rt, faults: 0 }
    }
}

impl<R: RandomSource + Copy> Cookies for RandomCookies<R> {
    ghost faults = { λ c. c.faults };

    ghost answered = { λ _. None };

    fn next(&mut self) -> Result<[u8; 16], CookieFailed> {
        let mut cookie = [0u8; 16];
        match self.rt.fill_bytes(&mut cookie) {
            Ok(()) => Ok(cookie),
            Err(_) => {
                self.faults = self.faults.saturating_add(1);
                Err(CookieFailed)
            }
        }
    }
}
