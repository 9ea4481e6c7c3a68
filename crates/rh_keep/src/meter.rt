//! The bytes that were put on a channel, and its lifetime.

ghost use Rattle.std.specs.Prelude.{◌≡◌, ◌≤◌, IsTrue};
ghost use Rattle.rh_keep.specs.Meters.{started, may_put, fits, wanted, after_put};

use std::marker::Model;

/// How many bytes of a lifetime are kept for the packets that ask `fits` alone, such as those that
/// end a channel or hand it over (profile).
pub const RESERVE: u32 = 256;
/// How many bytes before the end of its lifetime a channel is to be replaced (profile).
pub const REPLACED_BEFORE: u32 = 65_536;

/// Counts the bytes that are put on a channel, which its lifetime bounds (MS-RPCH 3.2).
#[derive(Clone, Copy)]
pub struct Meter {
    length: u32,
    count: u32,
}

impl Model for Meter {
    ghost use Rattle.std.specs.Prelude.{◌<◌, ◌^◌};
    ghost use Rattle.rh_keep.specs.Meters as seen;

    ghost Value = { seen.Meter };

    ghost view = { λ m. record { length = m.length; count = m.count } };

    // so that a count within it has 32 bits too
    ghost invariant = { λ m. m.length < 2 ^ 32 };

    ghost inverse = { λ m. record { length = m.length; count = m.count } };
}

impl Meter {
    /// A meter of a lifetime of `length` bytes, of which `start` bytes are used.
    pub fn new(length: u32, start: u32) -> Meter
        ensures { result ≡ started length start }
    {
        Meter {
            length,
            count: start,
        }
    }

    /// Whether `len` bytes more are within the lifetime and leave `RESERVE` bytes of it.
    pub fn may_put(&self, len: u16) -> bool
        ensures { result ≡ may_put self.now len }
    {
        u64::from(self.count) + u64::from(len) + u64::from(RESERVE) <= u64::from(self.length)
    }

    /// Whether `len` bytes more are within the lifetime.
    pub fn fits(&self, len: u16) -> bool
        ensures { result ≡ fits self.now len }
    {
        u64::from(self.count) + u64::from(len) <= u64::from(self.length)
    }

    /// Whether the channel is to be replaced: at most `REPLACED_BEFORE` bytes of its lifetime are
    /// left.
    pub fn wanted(&self) -> bool
        ensures { result ≡ wanted self.now }
    {
        u64::from(self.count) + u64::from(REPLACED_BEFORE) >= u64::from(self.length)
    }

    /// Counts `len` bytes as put.
    pub fn put(&mut self, len: u16)
        requires { IsTrue (fits self.old len) }
        ensures new { self.new ≡ after_put self.old len }
        ensures within { self.new.count ≤ self.new.length }
    {
        self.count += u32::from(len);
    }
}
