//! How many PDUs went in one direction.

ghost use Rattle.std.specs.Prelude.{◌≡◌};
ghost use Rattle.rh_wires.specs.Counts as seen;

/// How many PDUs were given at one end, and taken at the other. A count stands still at the end of
/// its type.
#[derive(Clone, Copy)]
pub struct Counts {
    pub given: u32,
    pub taken: u32,
}

impl Counts {
    /// One more was given.
    pub fn give(&mut self)
        ensures { self.new ≡ seen.given self.old }
    {
        self.given = self.given.saturating_add(1);
    }

    /// One more was taken.
    pub fn take(&mut self)
        ensures { self.new ≡ seen.taken self.old }
    {
        self.taken = self.taken.saturating_add(1);
    }
}
