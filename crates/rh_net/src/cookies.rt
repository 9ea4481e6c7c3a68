//! Sources of cookies, by which channels and connections are told apart.

ghost use Rattle.std.specs.Prelude.{◌≡◌, ℕ, ◌≤◌, List, [], None, Some, IfOk, OnOk, OnErr, MatchResult};
ghost use Rattle.std.specs.declared.option.Option.{Option};
ghost use Rattle.rh_io.specs.Counts.{Rose};
ghost use Rattle.rh_net.specs.Answered.{Gains, first_cookies, cookie_behind};
ghost use Rattle.rh_net.specs.Counts.{one_more};
ghost use Rattle.rh_net.specs.Failing.{fails_next};

use crate::failing::FailingCalls;

/// A cookie that could not be made. The count of faults rose.
#[derive(Clone, Copy, Debug, PartialEq, Eq)]
pub struct CookieFailed;

/// What makes cookies of 16 bytes.
pub trait Cookies {
    /// How often it failed.
    ghost faults: { Self → ℕ };

    /// The cookies that it answered, in order, where it tells them.
    ghost answered: { Self → Option (List (List ℕ)) };

    /// The next cookie. Fails only where it counts a fault, and has answered no cookie then.
    fn next(&mut self) -> Result<[u8; 16], CookieFailed>
        ensures answered { IfOk result
            (λ cookie. Gains (answered self.old) (answered self.new) cookie) }
        ensures ok { OnOk result (faults self.new ≡ faults self.old) }
        ensures err { OnErr result (Rose (faults self.old) (faults self.new)
            × (answered self.new ≡ answered self.old)) }
        ensures later { faults self.old ≤ faults self.new };
}

/// Cookies that count: the nth is the number n as 16 bytes, the most significant first. It tells
/// them all.
#[derive(Drop)]
pub struct CountCookies {
    fails: FailingCalls,
    made: u64,
    faults: u64,
}

impl CountCookies {
    /// Cookies from 1 on.
    ///
    /// `fails` has the numbers of the calls that fail, counted from 1; a call that fails uses up no
    /// cookie.
    pub fn new(fails: Vec<u64>) -> CountCookies
        ensures faults { ⟦<CountCookies as Cookies>⟧.faults result ≡ 0 }
        ensures answered { ⟦<CountCookies as Cookies>⟧.answered result ≡ Some [] }
        ensures made { result.made ≡ 0 }
        ensures asked { (result.fails.numbers ≡ fails) × (result.fails.calls ≡ 0) }
    {
        CountCookies {
            fails: FailingCalls::new(fails),
            made: 0,
            faults: 0,
        }
    }

    /// How often it failed.
    pub fn faults(&self) -> u64
        ensures { ⟦<CountCookies as Cookies>⟧.faults self.now ≡ result }
    {
        self.faults
    }
}

impl Cookies for CountCookies {
    ghost faults = { λ c. c.faults };

    ghost answered = { λ c. Some (first_cookies c.made) };

    fn next(&mut self) -> Result<[u8; 16], CookieFailed>
        ensures answered { IfOk result (λ cookie.
            Gains (Some (first_cookies self.old.made))
            (Some (first_cookies self.new.made)) cookie) }
        ensures ok { OnOk result (self.new.faults ≡ self.old.faults) }
        ensures err { OnErr result (Rose self.old.faults self.new.faults
            × (Some (first_cookies self.new.made) ≡ Some (first_cookies self.old.made))) }
        ensures later { self.old.faults ≤ self.new.faults }
        ensures exact { let made = cookie_behind
            (fails_next self.old.fails.numbers.items self.old.fails.calls) self.old.made in
            MatchResult result (λ cookie. made ≡ Some cookie) (λ _. made ≡ None) }
        ensures next { (self.new.fails.calls ≡ one_more self.old.fails.calls)
            × (self.new.fails.numbers ≡ self.old.fails.numbers) }
    {
        if self.fails.next_fails() || self.made == u64::MAX {
            self.faults = self.faults.saturating_add(1);
            return Err(CookieFailed);
        }
        self.made += 1;
        Ok(u128::from(self.made).to_be_bytes())
    }
}
