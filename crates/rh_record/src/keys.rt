//! The keys of `set` lines: their words, and the values that they take.

ghost use Rattle.std.specs.Prelude.{◌≡◌, ℕ, MatchOption};
ghost use Rattle.rh_record.specs.Words.{IsValue, within};

use crate::line::Key;
use crate::words::MOST_NUMBER;
use rh_keep::{GREATEST_LIFETIME, LEAST_LIFETIME};
use rh_sig::ranges::{
    DEFAULT_KEEPALIVE, GREATEST_KEEPALIVE, GREATEST_TIMEOUT, LEAST_KEEPALIVE, LEAST_TIMEOUT,
};
use rh_text::read_number;
use rh_window::{GREATEST_WINDOW, LEAST_WINDOW};

/// Whether the value lies from `least` to `most`.
fn is_within(least: u32, most: u32, value: u64) -> bool
    ensures { result ≡ within least most value }
{
    u64::from(least) <= value && value <= u64::from(most)
}

/// All keys.
const KEYS: [Key; 10] = [
    Key::Cwin,
    Key::Iwin,
    Key::Owin,
    Key::Swin,
    Key::Ilife,
    Key::Olife,
    Key::Itime,
    Key::Otime,
    Key::Keep,
    Key::Same,
];

impl Key {
    ghost use Rattle.rh_record.specs.declared.line.Key.{Key};
    ghost use Rattle.rh_record.specs.Words.{key_word, takes};

    /// The word for the key.
    pub fn word(self) -> &'static str
        ensures { result.now ≡ key_word self }
    {
        match self {
            Key::Cwin => "cwin",
            Key::Iwin => "iwin",
            Key::Owin => "owin",
            Key::Swin => "swin",
            Key::Ilife => "ilife",
            Key::Olife => "olife",
            Key::Itime => "itime",
            Key::Otime => "otime",
            Key::Keep => "keep",
            Key::Same => "same",
        }
    }

    /// The key that the word is for; `None` where it is for none.
    pub fn of_word(word: &[u8]) -> Option<Key>
        ensures { MatchOption result ((key : Key) → ¬ (word.now ≡ key_word key))
            (λ key. word.now ≡ key_word key) }
    {
        'keys: for at in 0..KEYS.len() {
            if word == KEYS[at].word().as_bytes() {
                return Some(KEYS[at]);
            }
        }
        None
    }

    /// Whether the number is a value of the key.
    pub fn takes(self, value: u64) -> bool
        ensures { result ≡ takes self value }
    {
        match self {
            Key::Cwin | Key::Iwin | Key::Owin | Key::Swin => {
                is_within(LEAST_WINDOW, GREATEST_WINDOW, value)
            }
            Key::Ilife | Key::Olife => is_within(LEAST_LIFETIME, GREATEST_LIFETIME, value),
            Key::Itime | Key::Otime => is_within(LEAST_TIMEOUT, GREATEST_TIMEOUT, value),
            Key::Keep => {
                value == u64::from(DEFAULT_KEEPALIVE)
                    || is_within(LEAST_KEEPALIVE, GREATEST_KEEPALIVE, value)
            }
            Key::Same => is_within(0, 1, value),
        }
    }

    /// The value of the key that the word spells; `None` exactly where it spells none.
    pub fn read_value(self, word: &[u8]) -> Option<u32>
        ensures { MatchOption result ((value : ℕ) → ¬ IsValue self value word.now)
            (λ value. IsValue self value word.now) }
    {
        let value = read_number(word, 0, MOST_NUMBER)?;
        if self.takes(value) {
            Some(value as u32)
        } else {
            None
        }
    }
}
