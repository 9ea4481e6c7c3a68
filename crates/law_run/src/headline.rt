//! What the program's headline claims.

ghost use Rattle.law_run.specs.Claims.{Claims};

use crate::claims::recordings_keep_to_their_claims;
use rh_words::Claims;

/// At every line of a recording's report the PDUs that an end took are a front of those that the
/// other end gave, each once and in order. An end takes none after it closed, and has taken all of
/// them where it reports a clean end. No more is held for a channel than its window, and each node
/// is reported as closed once at most, by a line whose answers show why; each later answer of that
/// end names the same cause.
pub struct Headline;

impl Claims for Headline {
    ghost claim = { Claims };

    fn hold() {
        recordings_keep_to_their_claims();
    }
}
