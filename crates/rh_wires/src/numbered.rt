//! Lists that have an item for each number, and a blank one for each number behind their end.

ghost use Rattle.std.specs.Prelude.{◌≡◌, ◌≤◌, ◌<◌, ℕ, false, OnOk, get_or, length, vec_len, max};
ghost use Rattle.rh_wires.specs.Numbered.{AreIdle, grown};

use std::alloc::AllocError;

/// What may stand at a number.
pub trait Item: Drop {
    ghost use Rattle.std.specs.Prelude.{◌≡◌, Bool};

    ghost blank: { Self };

    ghost is_idle: { Self → Bool };

    /// What stands at a number where nothing was put.
    fn blank() -> Self
        ensures { result ≡ blank };

    /// Whether the item need not be looked for.
    fn is_idle(&self) -> bool
        ensures { result ≡ is_idle self.now };
}

impl Item for u32 {
    ghost use Rattle.std.specs.Prelude.{◌==◌};

    ghost blank = { 0 };

    ghost is_idle = { λ n. n == 0 };

    fn blank() -> u32 {
        0
    }

    fn is_idle(&self) -> bool {
        *self == 0
    }
}

/// Adds blank items up to a length, where there are fewer. Fails where there is no memory; some may
/// be added then.
pub fn grow<T: Item>(list: &mut Vec<T>, len: usize) -> Result<(), AllocError>
    ensures done { OnOk result (list.new.items ≡ grown len T.blank list.old.items) }
    ensures same { (k : ℕ) → get_or list.new.items k T.blank ≡ get_or list.old.items k T.blank }
    ensures long { OnOk result (len ≤ vec_len list.new) }
    ensures most { vec_len list.new ≤ max len (vec_len list.old) }
{
    'items: while list.len() < len {
        list.push(T::blank())?;
    }
    Ok(())
}

/// Moves a mark on to the first number at or behind it at which an item isn't idle, or one behind
/// the last. Items that were skipped are not looked at again from there.
pub fn skip_idle<T: Item>(list: &[T], mark: &mut usize)
    requires { AreIdle T.is_idle T.blank mark.old list.now }
    ensures idle { AreIdle T.is_idle T.blank mark.new list.now }
    ensures later { mark.old ≤ mark.new }
    ensures stands { mark.new < length list.now
        → T.is_idle (get_or list.now mark.new T.blank) ≡ false }
{
    'items: while *mark < list.len() && list[*mark].is_idle() {
        *mark += 1;
    }
}
