//! The lines of a generated recording: which end gives a PDU, and where all settles.

ghost use Rattle.std.specs.Prelude.{◌≡◌};
ghost use Rattle.rh_made.specs.Making as lines;

use rh_record::Side;

/// How many rounds a settling has at most.
pub const ROUNDS: u32 = 1000;

/// Behind each so many PDUs all settles.
pub const SETTLED_AFTER: u32 = 16;

/// The end at which the PDU of this number is given.
pub fn giver(number: u32) -> Side
    ensures { result ≡ lines.giver number }
{
    if number % 2 == 1 {
        Side::Client
    } else {
        Side::Server
    }
}

/// Whether all settles behind the PDU of this number, of so many.
pub fn settles(count: u32, number: u32) -> bool
    ensures { result ≡ lines.settles count number }
{
    number % SETTLED_AFTER == 0 || number == count
}
