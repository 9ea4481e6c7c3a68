//! The cookies that the legs of the client get.

ghost use Rattle.std.specs.Prelude.{◌≡◌, ◌+◌, ◌<◌, ◌^◌, [], OnOk};
ghost use Rattle.rh_company.specs.Cookies as seen;

use rh_rts::Cookie;
use std::alloc::{AllocError, Global};
use std::marker::Model;

/// Cookies by their numbers, which are drawn one after the other, and those that legs have had.
#[derive(Drop)]
pub struct Cookies {
    first: u64,
    next: u64,
    others: Vec<u128>,
}

impl Model for Cookies {
    ghost use Rattle.rh_company.specs.Cookies as seen;

    ghost Value = { seen.Cookies };

    ghost view = { λ a. record { first = a.first; next = a.next; others = a.others.items } };
}

/// The cookie of a number: its 16 bytes, the most significant first.
pub fn cookie_of(number: u64) -> Cookie
    ensures { result ≡ seen.cookie_of number }
{
    Cookie(u128::from(number).to_be_bytes())
}

/// The number of a cookie.
fn number_of(cookie: Cookie) -> u128
    ensures { result ≡ seen.number_of cookie }
{
    u128::from_be_bytes(cookie.0)
}

/// The number behind this one where that is one of the others, else this one.
fn past_one(others: &[u128], number: u64) -> u64
    ensures { result ≡ seen.past_one others.now number }
{
    if others.contains(&u128::from(number)) {
        number.saturating_add(1)
    } else {
        number
    }
}

/// The first number from this one on that is none of the others.
fn past_others(others: &[u128], number: u64) -> u64
    ensures { result ≡ seen.past others.now others.now number }
{
    let mut past = number;
    'others: for _at in 0..others.len() {
        past = past_one(others, past);
    }
    past
}

impl Cookies {
    ghost use Rattle.std.specs.Prelude.{◌++◌, ◌∷◌};

    /// Cookies of which none was drawn. The number is that of the first one that a leg gets.
    pub fn new(alloc: Global, first: u64) -> Cookies
        ensures { result ≡ seen.from first }
    {
        Cookies {
            first,
            next: first,
            others: Vec::new(alloc),
        }
    }

    /// The next cookie that no leg has had.
    pub fn draw(&mut self) -> Cookie
        ensures { (self.new, result) ≡ seen.draw self.old }
    {
        let number = past_others(&self.others, self.next);
        self.next = number.saturating_add(1);
        cookie_of(number)
    }

    /// Whether a leg has had the cookie.
    pub fn was_had(&self, cookie: Cookie) -> bool
        ensures { result ≡ seen.was_had self.now cookie }
    {
        let number = number_of(cookie);
        (u128::from(self.first) <= number && number < u128::from(self.next))
            || self.others.contains(&number)
    }

    /// A leg has this cookie, which was not drawn. Fails where there is no memory.
    pub fn add(&mut self, cookie: Cookie) -> Result<(), AllocError>
        ensures { OnOk result (self.new ≡ seen.with_other self.old cookie) }
    {
        self.others.push(number_of(cookie))?;
        Ok(())
    }
}
