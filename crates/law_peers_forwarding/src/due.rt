//! How many answers are due at a server. This function calls the laws that it stands on: its
//! contract is the law.

ghost use Rattle.std.specs.Prelude.{ℕ};
ghost use Rattle.law_peers_moments.specs.Moments.{IsMoment, Moves, Numbers};
ghost use Rattle.law_peers_forwarding.specs.Passing.{OneIsDue};

use law_peers_moments::replacements_go_round;
use law_role_server::a_server_answers_each_in_channel_once;

/// At each moment of a virtual connection, behind each front of the server's moves: one answer to
/// IN_R1/A2 and IN_R2/A2 at most was due there (the replacement of channels is this profile's).
pub fn one_answer_is_due()
    ensures { (numbers : Numbers) (reader : ℕ → ℕ) (moves : Moves)
        → IsMoment numbers reader moves → OneIsDue numbers.window moves.server }
{
    replacements_go_round();
    a_server_answers_each_in_channel_once();
}
