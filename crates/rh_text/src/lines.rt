//! Splits a text into lines, each ended by LF.

ghost use Rattle.std.specs.Prelude.{◌<◌, length};
ghost use Rattle.rh_text.specs.Lines.{BeginsWith};

use memchr::memchr;

/// The byte that ends a line.
pub const LINE_FEED: u8 = b'\n';

/// The first line of a text without its LF, and what stands behind that.
///
/// Where the text has no LF it is one line, and nothing stands behind it.
pub fn split_line(text: &[u8]) -> (&[u8], &[u8])
    ensures begins { BeginsWith text.now result.0.now result.1.now }
    ensures shorter { 0 < length text.now → length result.1.now < length text.now }
{
    match memchr(LINE_FEED, text) {
        Some(end) => {
            let (line, behind) = text.split_at(end);
            let (_, rest) = behind.split_at(1);
            (line, rest)
        }
        None => text.split_at(text.len()),
    }
}
