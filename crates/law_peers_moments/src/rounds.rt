//! Replacements at a moment of a virtual connection. This function does nothing: its contract is
//! the law.

ghost use Rattle.std.specs.Prelude.{ℕ};
ghost use Rattle.law_peers_moments.specs.Moments.{AreJoined, AreMade, Moves, Numbers};
ghost use Rattle.law_peers_moments.specs.Moments.{client_behind, passages, server_behind};
ghost use Rattle.law_peers_moments.specs.GoingRound.{GoRound};

use law_role_client::{
    a_client_asks_where_a_successor_is_wanted, a_client_replaces_in_channels_one_by_one,
    a_client_replaces_out_channels_one_by_one,
};
use law_role_inproxy::an_in_proxy_puts_for_what_came;
use law_role_outproxy::{an_out_proxy_forwards_what_came, an_out_proxy_opens_what_came};
use law_role_server::{
    a_server_answers_each_in_channel_once, a_server_replaces_out_channels_one_by_one,
};

/// Where the moves of the roles are joined by legs, of each packet of a replacement as many passed
/// the ends as of the one before it, or one less. So at most one replacement of an IN channel and
/// one of an OUT channel is on its way.
pub fn replacements_go_round()
    ensures { (numbers : Numbers) (reader : ℕ → ℕ) (moves : Moves) → AreMade numbers moves
        → AreJoined reader (passages numbers moves)
        → GoRound (client_behind numbers moves).passage (server_behind numbers moves).passage }
{
    a_client_replaces_in_channels_one_by_one();
    a_client_replaces_out_channels_one_by_one();
    a_client_asks_where_a_successor_is_wanted();
    a_server_answers_each_in_channel_once();
    a_server_replaces_out_channels_one_by_one();
    an_in_proxy_puts_for_what_came();
    an_out_proxy_forwards_what_came();
    an_out_proxy_opens_what_came();
}
