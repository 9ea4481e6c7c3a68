//! Laws of a meter. This function does nothing: its contract is the laws.

ghost use Rattle.std.specs.Prelude.{◌≡◌, ◌+◌, ◌≤◌, ℕ, List, IsTrue, sum};
ghost use Rattle.rh_keep.specs.Meters.{Meter, may_put, fits, after_puts, CanPut};

/// A meter counts the sum of what was put, which is within the lifetime where each packet fitted
/// when its turn came. What may be put fits.
pub fn meter_adds_up()
    ensures sum { (m : Meter) (lens : List ℕ) → (after_puts m lens).count ≡ m.count + sum lens }
    ensures within { (m : Meter) (lens : List ℕ) → m.count ≤ m.length → CanPut m lens
        → m.count + sum lens ≤ m.length }
    ensures fits { (m : Meter) (len : ℕ) → IsTrue (may_put m len) → IsTrue (fits m len) }
{}
