//! A source over any reader of std.

ghost use Rattle.std.specs.Prelude.{◌≡◌, None};

use crate::source::{Source, SourceFailed};
use std::io::Read;

/// A source over a reader. It tells what is left where the reader does, and not what was read.
///
/// Each error of the reader is a fault, an interrupted read too.
#[derive(Drop)]
pub struct ReaderSource<R: Read> {
    inner: R,
    faults: u64,
    ends: u64,
}

impl<R: Read> ReaderSource<R> {
    /// A source over `inner`, with both counts at 0.
    pub fn new(inner: R) -> ReaderSource<R>
        ensures left { ⟦<ReaderSource<R> as Source>⟧.left result ≡ R.remaining inner }
        ensures faults { ⟦<ReaderSource<R> as Source>⟧.faults result ≡ 0 }
        ensures ends { ⟦<ReaderSource<R> as Source>⟧.ends result ≡ 0 }
    {
        ReaderSource {
            inner,
            faults: 0,
            ends: 0,
        }
    }
}

impl<R: Read> Source for ReaderSource<R> {
    ghost left = { λ s. R.remaining s.inner };

    ghost taken = { λ _. None };

    ghost faults = { λ s. s.faults };

    ghost ends = { λ s. s.ends };

    fn read(&mut self, room: &mut [u8]) -> Result<usize, SourceFailed> {
        if room.is_empty() {
            return Ok(0);
        }
        match self.inner.read(room) {
            Ok(count) => {
                if count == 0 {
                    self.ends = self.ends.saturating_add(1);
                }
                Ok(count)
            }
            Err(_) => {
                self.faults = self.faults.saturating_add(1);
                Err(SourceFailed)
            }
        }
    }
}
