//! The calls of an object in memory that are to fail.

ghost use Rattle.std.specs.Prelude.{◌≡◌};
ghost use Rattle.rh_net.specs.Counts.{one_more};
ghost use Rattle.rh_net.specs.Failing.{fails_next};

/// Numbers of calls, from 1, that are to fail, and how many calls there were.
#[derive(Drop)]
pub struct FailingCalls {
    numbers: Vec<u64>,
    calls: u64,
}

impl FailingCalls {
    /// No call was made yet.
    pub fn new(numbers: Vec<u64>) -> FailingCalls
        ensures { (result.numbers ≡ numbers) × (result.calls ≡ 0) }
    {
        FailingCalls { numbers, calls: 0 }
    }

    /// Whether the next call is to fail.
    pub fn is_next(&self) -> bool
        ensures { result ≡ fails_next self.now.numbers.items self.now.calls }
    {
        self.numbers.contains(&self.calls.saturating_add(1))
    }

    /// Counts a call, and tells whether it is to fail.
    pub fn next_fails(&mut self) -> bool
        ensures fails { result ≡ fails_next self.old.numbers.items self.old.calls }
        ensures next { (self.new.calls ≡ one_more self.old.calls)
            × (self.new.numbers ≡ self.old.numbers) }
    {
        self.calls = self.calls.saturating_add(1);
        self.numbers.contains(&self.calls)
    }
}
