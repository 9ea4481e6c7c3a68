//! The system's clock.

ghost use Rattle.std.specs.Prelude.{◌≡◌, IfOk};
ghost use Rattle.std.specs.Duration.{as_nanos};
ghost use Rattle.rh_tcp.specs.Moments.{millis};

use std::io;
use std::time::{self, Duration, Instant};

/// The system's monotonic clock, in milliseconds since it was made.
#[derive(Clone, Copy)]
pub struct SystemClock<R: time::Clock + Copy> {
    rt: R,
    start: Instant,
    last: u64,
}

impl<R: time::Clock + Copy> SystemClock<R> {
    /// A clock that begins now. Fails where the system's can't be read.
    pub fn new(rt: R) -> io::Result<SystemClock<R>>
        ensures { IfOk result (λ c. ⟦<SystemClock<R> as rh_net::Clock>⟧.moment c ≡ 0) }
    {
        Ok(SystemClock {
            rt,
            start: Instant::now(&rt)?,
            last: 0,
        })
    }
}

impl<R: time::Clock + Copy> rh_net::Clock for SystemClock<R> {
    ghost moment = { λ c. c.last };

    /// Where the system's clock can't be read, or went back, this is the moment before.
    fn now(&mut self) -> u64 {
        if let Ok(elapsed) = self.start.elapsed(&self.rt) {
            let moment = millis(elapsed);
            self.last = self.last.max(moment);
        }
        self.last
    }
}

// The milliseconds of a time, of which 2^64 - 1 are the most.
fn millis(elapsed: Duration) -> u64
    ensures { result ≡ millis (as_nanos elapsed) }
{
    u64::try_from(elapsed.as_millis()).unwrap_or(u64::MAX)
}
