//! A client expects what comes. Its function does nothing: its contract is the law.

ghost use Rattle.std.specs.Prelude.{ℕ};
ghost use Rattle.rh_client.specs.Client.{rules};
ghost use Rattle.rh_client.specs.State.{co};
ghost use Rattle.law_moves.specs.Wires.{of_leg};
ghost use Rattle.law_moves.specs.ReadBack.Reading.{all_read_of};
ghost use Rattle.law_peers_moments.specs.Expecting.{Expects};
ghost use Rattle.law_peers_moments.specs.Moments.{IsMoment, Moves, Numbers, client_behind, out_behind};

use crate::client_expects::wanted::successors_are_wanted_in_turn;
use law_peers_moments::replacements_go_round;
use law_role_client::{
    a_client_asks_where_a_successor_is_wanted, a_client_names_its_out_channels,
    a_client_opens_once, a_client_replaces_out_channels_one_by_one,
};
use law_role_client_rows::what_a_client_refuses;
use law_role_outproxy::{
    an_out_proxy_forwards_what_came, an_out_proxy_keeps_order,
    an_out_proxy_opens_to_its_client_in_order,
};
use law_role_server::{a_server_opens_once, a_server_replaces_out_channels_one_by_one};
use law_role_server_rows::{
    a_server_has_numbers_for_out_channels, a_server_writes_on_channels_that_began,
};

/// At each moment of a virtual connection: whatever is the next of what an out proxy put to the
/// client, the client doesn't refuse it as unexpected, nor for its cookie, where the leg came up
/// and is in use and its packets are counted truly (MS-RPCH 3.2.2.5; replacements and the end are
/// this profile's).
pub fn a_client_expects_what_comes()
    ensures { (numbers : Numbers) (reader : ℕ → ℕ) (moves : Moves)
        → IsMoment numbers reader moves → (n : ℕ)
        → Expects rules (client_behind numbers moves).passage (co n)
        (all_read_of (of_leg (co n) (out_behind numbers moves n).put)) }
{
    successors_are_wanted_in_turn();
    a_client_replaces_out_channels_one_by_one();
    a_client_asks_where_a_successor_is_wanted();
    a_client_opens_once();
    a_client_names_its_out_channels();
    what_a_client_refuses();
    a_server_opens_once();
    a_server_replaces_out_channels_one_by_one();
    a_server_writes_on_channels_that_began();
    a_server_has_numbers_for_out_channels();
    an_out_proxy_forwards_what_came();
    an_out_proxy_keeps_order();
    an_out_proxy_opens_to_its_client_in_order();
    replacements_go_round();
}
