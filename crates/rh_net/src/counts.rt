//! The counts of a net, as its forms keep them.

ghost use Rattle.std.specs.Prelude.{◌≡◌, ◌≤◌};
ghost use Rattle.rh_net.specs.Counts.{one_more, one_more_where};

/// The four counts of a net. Each stays at 2^64 - 1.
#[derive(Clone, Copy, Debug, PartialEq, Eq)]
pub struct NetCounts {
    /// Calls that failed.
    pub faults: u64,
    /// Legs given.
    pub given: u64,
    /// Streams taken back that had failed.
    pub leg_faults: u64,
    /// Sources taken back that had ended.
    pub leg_ends: u64,
}

impl NetCounts {
    /// All counts at 0.
    pub fn new() -> NetCounts
        ensures { result ≡ record { faults = 0; given = 0; leg_faults = 0; leg_ends = 0 } }
    {
        NetCounts {
            faults: 0,
            given: 0,
            leg_faults: 0,
            leg_ends: 0,
        }
    }

    /// Counts a call that failed.
    pub fn count_fault(&mut self)
        ensures later { self.old.faults ≤ self.new.faults }
        ensures counts { self.new ≡ record self.old { faults = one_more self.old.faults } }
    {
        self.faults = self.faults.saturating_add(1);
    }

    /// Counts a leg that is given.
    pub fn count_given(&mut self)
        ensures later { self.old.given ≤ self.new.given }
        ensures counts { self.new ≡ record self.old { given = one_more self.old.given } }
    {
        self.given = self.given.saturating_add(1);
    }

    /// Counts a source that is taken back, by its own counts of faults and ends.
    pub fn count_source(&mut self, faults: u64, ends: u64)
        ensures later { (self.old.leg_faults ≤ self.new.leg_faults)
            × (self.old.leg_ends ≤ self.new.leg_ends) }
        ensures counts { self.new ≡ record self.old {
          leg_faults = one_more_where self.old.leg_faults faults;
          leg_ends = one_more_where self.old.leg_ends ends;
        } }
    {
        self.count_sink(faults);
        if ends != 0 {
            self.leg_ends = self.leg_ends.saturating_add(1);
        }
    }

    /// Counts a sink that is taken back, by its own count of faults.
    pub fn count_sink(&mut self, faults: u64)
        ensures later { self.old.leg_faults ≤ self.new.leg_faults }
        ensures counts { self.new ≡ record self.old {
          leg_faults = one_more_where self.old.leg_faults faults;
        } }
    {
        if faults != 0 {
            self.leg_faults = self.leg_faults.saturating_add(1);
        }
    }
}
