//! The text of a cookie.

ghost use Rattle.std.specs.Prelude.{◌≡◌};
ghost use Rattle.rh_sig.specs.Cookies.{text_of_cookie};

use rh_rts::Cookie;
use uuid::Uuid;

/// The length of a cookie's text, in bytes.
pub const COOKIE_TEXT_LEN: usize = 36;

/// Writes the cookie as hex digits in lower case: its bytes in their order, in groups of 4, 2, 2, 2
/// and 6 with a hyphen between two groups.
#[tactic(auto, using(uuid::proofs::TextLemmas::by_index_length, crate::proofs::Texts::by_places))]
pub fn cookie_text(cookie: &Cookie, room: &mut [u8; COOKIE_TEXT_LEN])
    ensures { room.new ≡ text_of_cookie cookie.now.0 }
{
    let mut buffer = [0; COOKIE_TEXT_LEN];
    let text = Uuid::from_bytes(cookie.0)
        .hyphenated()
        .encode_lower(&mut buffer);
    room.copy_from_slice(text.as_bytes());
}
