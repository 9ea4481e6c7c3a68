//! How many OUT channels a server asks for. Its function does nothing: its contract is the law.

ghost use Rattle.std.specs.Prelude.{List, ℕ};
ghost use Rattle.rh_server.specs.Servers.{acts, first, rules};
ghost use Rattle.law_moves.specs.Moves.{EndMove, all_end_moved, end_started};
ghost use Rattle.law_role_server_rows.specs.InTurn.Numbers.{HasNumbers};

use law_role_server::a_server_replaces_out_channels_one_by_one;

/// Whatever moves a server makes, allowed or not: OUT_R1/A1 and OUT_R1/A9 are put less often than
/// the last number of a channel says, which is 2^32 - 1. So each OUT channel has a number of 32
/// bits (profile).
pub fn a_server_has_numbers_for_out_channels()
    ensures { (window : ℕ) (moves : List EndMove)
        → HasNumbers (all_end_moved rules acts (end_started (first window)) moves).passage }
{
    a_server_replaces_out_channels_one_by_one();
}
