//! The numbers of a head.

ghost use Rattle.std.specs.Prelude.{◌≡◌, ◌+◌, ◌-◌, ◌*◌, ◌<◌, ℕ, MatchOption};
ghost use Rattle.std.specs.Int.{IsInRange};
ghost use Rattle.rh_http.specs.Numbers.{IsLengthText, IsPortText};

use rh_text::read_number;

/// The most digits of a length.
pub const MOST_DIGITS: usize = 10;
/// The least port.
pub const LEAST_PORT: u64 = 1;
/// The greatest port.
pub const GREATEST_PORT: u64 = 65_535;

/// The number with one more digit behind its own.
fn with_digit(number: u64, digit: u8) -> u64
    requires number { number < 1000000000 }
    requires digit { IsInRange 48 57 digit }
    ensures { result ≡ number * 10 + (digit - 48) }
{
    number * 10 + u64::from(digit - b'0')
}

/// The number that 1 to 10 digits spell; zeros may lead it.
pub fn read_length(text: &[u8]) -> Option<u64>
    ensures { MatchOption result ((n : ℕ) → ¬ IsLengthText text.now n)
        (λ n. IsLengthText text.now n) }
{
    if text.is_empty() || text.len() > MOST_DIGITS {
        return None;
    }
    let mut number: u64 = 0;
    for place in 0..text.len() {
        let digit = text[place];
        if !digit.is_ascii_digit() {
            return None;
        }
        number = with_digit(number, digit);
    }
    Some(number)
}

/// The port that the text spells: 1 to 65,535 in decimal, with no leading zero.
pub fn read_port(text: &[u8]) -> Option<u16>
    ensures { MatchOption result ((n : ℕ) → ¬ IsPortText text.now n) (λ n. IsPortText text.now n) }
{
    let port = read_number(text, LEAST_PORT, GREATEST_PORT)?;
    Some(port as u16)
}
