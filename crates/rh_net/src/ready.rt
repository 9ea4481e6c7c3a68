//! Sources that can tell whether a read would wait.

ghost use Rattle.std.specs.Prelude.{◌≡◌, true};
ghost use Rattle.rh_io.specs.Bytes.{Stays};

use rh_io::{MemSource, Source};

/// A source that can tell whether a read would wait.
pub trait Ready: Source {
    /// Whether the next read won't wait: for bytes, an end or a failure. It waits to find out, for
    /// `most` milliseconds at most.
    ///
    /// Changes neither count and no told byte.
    fn ready(&mut self, most: u32) -> bool
        ensures bytes { Stays (Self.left self.old) (Self.left self.new)
            (Self.taken self.old) (Self.taken self.new) }
        ensures counts { (Self.faults self.new ≡ Self.faults self.old)
            × (Self.ends self.new ≡ Self.ends self.old) }
        ensures unfailing { Self.unfailing self.old → Self.unfailing self.new };
}

impl Ready for MemSource {
    /// No read in memory waits.
    fn ready(&mut self, _most: u32) -> bool
        ensures bytes { Stays
            (⟦<MemSource as Source>⟧.left self.old) (⟦<MemSource as Source>⟧.left self.new)
            (⟦<MemSource as Source>⟧.taken self.old) (⟦<MemSource as Source>⟧.taken self.new) }
        ensures counts { (self.new.faults ≡ self.old.faults) × (self.new.ends ≡ self.old.ends) }
        ensures unfailing { ⟦<MemSource as Source>⟧.unfailing self.old
            → ⟦<MemSource as Source>⟧.unfailing self.new }
        ensures ready { result ≡ true }
        ensures same { self.new ≡ self.old }
    {
        true
    }
}
