//! How many PDUs a generated recording gives.

use std::marker::Model;

/// The greatest number of PDUs that a generated recording gives.
pub const MOST_GIVEN: u32 = 10_000;

/// How many PDUs a generated recording gives: 1 to 10,000.
#[derive(Clone, Copy, Debug, PartialEq, Eq)]
pub struct MakeCount {
    count: u32,
}

impl Model for MakeCount {
    ghost use Rattle.std.specs.Prelude.{ℕ};
    ghost use Rattle.rh_made.specs.Making.{IsCount};

    ghost Value = { ℕ };

    ghost view = { λ a. a.count };

    ghost invariant = { λ a. IsCount a.count };

    ghost inverse = { λ count. record { count = count } };
}

impl MakeCount {
    ghost use Rattle.std.specs.Prelude.{◌≡◌, MatchOption};
    ghost use Rattle.rh_made.specs.Making.{IsCount};

    /// So many PDUs; `None` where that is not 1 to 10,000.
    pub fn new(count: u32) -> Option<MakeCount>
        ensures { MatchOption result (¬ IsCount count) (λ made. made ≡ count) }
    {
        if 1 <= count && count <= MOST_GIVEN {
            Some(MakeCount { count })
        } else {
            None
        }
    }

    /// The number.
    pub fn get(self) -> u32
        ensures number { result ≡ self }
        ensures in_range { IsCount result }
    {
        self.count
    }
}
