//! On which OUT channels a successor is asked for. Its function does nothing: its contract is the
//! law.

ghost use Rattle.std.specs.Prelude.{ℕ};
ghost use Rattle.rh_line.specs.declared.leg.LegKind.TheVariants.{ClientOut};
ghost use Rattle.law_role_client.specs.Counted.Counting.{StandsOnEach, is_out_r1_a2};
ghost use Rattle.law_peers_moments.specs.Moments.{IsMoment, Moves, Numbers, client_behind};

use law_peers_moments::replacements_go_round;
use law_role_client::{
    a_client_asks_where_a_successor_is_wanted, a_client_replaces_out_channels_one_by_one,
};
use law_role_outproxy::an_out_proxy_forwards_what_came;
use law_role_server::a_server_replaces_out_channels_one_by_one;

/// At each moment of a virtual connection OUT_R1/A2 came at the client once on each OUT channel
/// from the first one on, and on no other: a channel's successor is asked for on that channel, once
/// the one before it was replaced (profile).
pub fn successors_are_wanted_in_turn()
    ensures { (numbers : Numbers) (reader : ℕ → ℕ) (moves : Moves)
        → IsMoment numbers reader moves
        → StandsOnEach is_out_r1_a2 ClientOut 1 (client_behind numbers moves).passage.came }
{
    a_client_replaces_out_channels_one_by_one();
    a_client_asks_where_a_successor_is_wanted();
    a_server_replaces_out_channels_one_by_one();
    an_out_proxy_forwards_what_came();
    replacements_go_round();
}
