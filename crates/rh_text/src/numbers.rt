//! Numbers as words: decimal, with no sign and no leading zero.

ghost use Rattle.std.specs.Prelude.{◌≡◌, ◌+◌, ◌-◌, ◌*◌, ◌^◌, ◌≤◌, ◌<◌, ◌↔◌, ℕ, IsTrue, MatchOption, length, get_or};
ghost use Rattle.std.specs.Str.Parse.{AllDigits, digits_value};
ghost use Rattle.rh_text.specs.Numbers.{IsNumber};

/// The number with a digit more behind its digits; `None` where that is no digit or does not fit.
#[inline]
fn append_digit(number: u64, digit: u8) -> Option<u64>
    ensures { MatchOption result ((48 ≤ digit) → (digit ≤ 57) → 2 ^ 64 ≤ number * 10 + (digit - 48))
        (λ next. (48 ≤ digit) × (digit ≤ 57) × (next ≡ number * 10 + (digit - 48))) }
{
    if !digit.is_ascii_digit() {
        return None;
    }
    number.checked_mul(10)?.checked_add(u64::from(digit - b'0'))
}

/// The number that digits write, zeros in front or not; `None` where one is no digit or the number
/// does not fit.
fn read_digits(text: &[u8]) -> Option<u64>
    ensures { MatchOption result (AllDigits 10 text.now → 2 ^ 64 ≤ digits_value 10 text.now)
        (λ number. AllDigits 10 text.now × (digits_value 10 text.now ≡ number)) }
{
    let mut number = 0;
    for digit in text {
        let Some(next) = append_digit(number, *digit) else {
            return None;
        };
        number = next;
    }
    Some(number)
}

/// Whether the text is one byte, or begins with another than zero.
#[inline]
fn begins_well(text: &[u8]) -> bool
    ensures { IsTrue result
        ↔ ((0 < length text.now) × (get_or text.now 0 0 ≡ 48 → length text.now ≡ 1)) }
{
    match text {
        [] => false,
        [b'0', behind @ ..] => behind.is_empty(),
        _ => true,
    }
}

/// The number that the text spells, from `least` to `most`; `None` exactly where it spells no such
/// number.
#[inline(always)]
pub fn read_number(text: &[u8], least: u64, most: u64) -> Option<u64>
    ensures { MatchOption result ((number : ℕ) → ¬ IsNumber least most text.now number)
        (λ number. IsNumber least most text.now number) }
{
    if !begins_well(text) {
        return None;
    }
    let Some(number) = read_digits(text) else {
        return None;
    };
    if number < least || number > most {
        return None;
    }
    Some(number)
}
