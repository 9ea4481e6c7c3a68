//! Which channels are late. This function calls the laws that it stands on: its contract is the
//! law.

ghost use Rattle.std.specs.Prelude.{ℕ};
ghost use Rattle.law_peers_moments.specs.Moments.{IsMoment, Moves, Numbers};
ghost use Rattle.law_peers_forwarding.specs.Late.{FewAreLate};

use law_peers_in_channels::in_channels_are_announced_in_order;
use law_peers_moments::replacements_go_round;
use law_role_server::{a_server_answers_each_in_channel_once, a_server_opens_once};
use law_role_server_in::handovers_make_room_for_answers;

/// At each moment of a virtual connection, behind each front of the server's moves: of the channels
/// that had been announced there acknowledgements may come of four only, the last two of each is
/// leg that IN_R1/A6 had not left, and of one more where one waits to be opened (successors are
/// this profile's).
pub fn few_channels_are_late()
    ensures { (numbers : Numbers) (reader : ℕ → ℕ) (moves : Moves)
        → IsMoment numbers reader moves → FewAreLate numbers moves }
{
    in_channels_are_announced_in_order();
    replacements_go_round();
    a_server_answers_each_in_channel_once();
    a_server_opens_once();
    handovers_make_room_for_answers();
}
