//! Lifetimes and silence: `meter` begins one, with `asked` and `put`; `idle` begins a limit, with
//! `touch` and `reached`.

use crate::numbers::{long_of, number_of, short_of};
use crate::spelling::tell;
use rh_keep::{Idle, Meter};
use std::alloc::AllocError;

/// A meter, and a time.
#[derive(Drop)]
pub struct Keep {
    meter: Meter,
    idle: Idle,
}

/// Whether a packet was put.
fn put(meter: &mut Meter, len: u16) -> bool {
    let fits = meter.fits(len);
    if fits {
        meter.put(len);
    }
    fits
}

/// A meter of this lifetime, of which so much is used.
fn meter_of(text: &[u8]) -> Meter {
    let (length, rest) = long_of(text);
    let (used, _) = long_of(rest);
    Meter::new(length, used)
}

/// A limit, and when its time began.
fn idle_of(text: &[u8]) -> Idle {
    let (limit, rest) = long_of(text);
    let (now, _) = number_of(rest);
    Idle::new(limit, now)
}

/// Appends whether a packet of this length may be put, whether it fits, and whether a successor is
/// wanted.
fn asked(meter: &Meter, len: u16, out: &mut String) -> Result<(), AllocError> {
    tell([meter.may_put(len), meter.fits(len), meter.wanted()], out)
}

impl Keep {
    pub fn new() -> Keep {
        Keep {
            meter: Meter::new(0, 0),
            idle: Idle::new(0, 0),
        }
    }

    /// Answers a call.
    pub fn call(&mut self, call: &str, text: &[u8], out: &mut String) -> Result<(), AllocError> {
        match call {
            "meter" => {
                self.meter = meter_of(text);
                Ok(())
            }
            "asked" => asked(&self.meter, short_of(text), out),
            "put" => tell(put(&mut self.meter, short_of(text)), out),
            "idle" => {
                self.idle = idle_of(text);
                Ok(())
            }
            "touch" => {
                let (now, _) = number_of(text);
                self.idle.touch(now);
                Ok(())
            }
            "reached" => {
                let (now, _) = number_of(text);
                tell(self.idle.reached(now), out)
            }
            _ => out.push_str("?"),
        }
    }
}
