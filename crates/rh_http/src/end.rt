//! Where a head ends.

use memchr::memmem;
use std::marker::Model;

/// The first byte of what ends a line of a head; the second is `LINE_FEED` (RFC 9112 section 2.1).
pub const CARRIAGE_RETURN: u8 = b'\r';

/// The end of the last line of a head, and the empty line behind it (RFC 9112 section 2.1).
const BLANK_LINE: &[u8] = b"\r\n\r\n";

/// Looks for the end of a head that comes in pieces of any length.
///
/// It keeps how many bytes it has searched, so that each byte is looked at a constant number of
/// times.
#[derive(Debug, Drop)]
pub struct HeadEnd {
    searched: usize,
}

impl Model for HeadEnd {
    ghost use Rattle.std.specs.Prelude.{ℕ};

    ghost Value = { ℕ };

    ghost view = { λ end. end.searched };
}

impl HeadEnd {
    ghost use Rattle.std.specs.Prelude.{◌≡◌, ◌≤◌, length, take, IfNone, OnSome};
    ghost use Rattle.rh_http.specs.Ends.{IsOpen, IsEnd};

    /// Before the first byte.
    pub fn new() -> HeadEnd
        ensures { result ≡ 0 }
    {
        HeadEnd { searched: 0 }
    }

    /// How many bytes are at the front of all that came up to and with their first blank line;
    /// `None` where none of them ends one.
    ///
    /// The bytes are all that came: those searched before, in which no blank line ended, and those
    /// behind them.
    pub fn find(&mut self, bytes: &[u8]) -> Option<usize>
        requires searched { self.old ≤ length bytes.now }
        requires none { IsOpen (take self.old bytes.now) }
        ensures end { IsEnd bytes.now result }
        ensures more { IfNone result (self.new ≡ length bytes.now) }
        ensures found { OnSome result (self.new ≡ self.old) }
    {
        let start = self.searched.saturating_sub(BLANK_LINE.len() - 1);
        let (_, behind) = bytes.split_at(start);
        match memmem::find(behind, BLANK_LINE) {
            Some(at) => Some(start + at + BLANK_LINE.len()),
            None => {
                self.searched = bytes.len();
                None
            }
        }
    }
}
