//! A server expects the successors of IN channels that it is told of. This function calls the laws
//! that it stands on: its contract is the law.

ghost use Rattle.std.specs.Prelude.{ℕ};
ghost use Rattle.rh_server.specs.Servers.{rules};
ghost use Rattle.law_moves.specs.Wires.{of_leg};
ghost use Rattle.law_moves.specs.ReadBack.Reading.{all_read_of};
ghost use Rattle.law_role_inproxy.specs.Counted.{is_leg};
ghost use Rattle.law_peers_moments.specs.Moments.{IsMoment, Moves, Numbers, in_behind, server_behind};
ghost use Rattle.law_peers_in_channels.specs.ServerExpects.Expected.{ExpectsThose};
ghost use Rattle.law_peers_in_channels.specs.InSuccessors.Connected.{AreConnected};
ghost use Rattle.law_peers_in_channels.specs.InSuccessors.Successors.{Announces};

use crate::in_channels::in_channels_are_announced_in_order;
use crate::server_expects::an_in_proxy_in_turn_puts_in_order;
use law_node_causes::{a_clients_leg_comes_up_once, a_servers_leg_comes_up_once};
use law_peers_expects::no_client_is_opened_early;
use law_peers_moments::replacements_go_round;
use law_role_client::{
    a_client_names_its_out_channels, a_client_opens_once, a_client_replaces_in_channels_one_by_one,
};
use law_role_client_rows::a_client_opens_in_channels_in_order;
use law_role_outproxy::{an_out_proxy_forwards_what_came, an_out_proxy_opens_to_the_server_first};
use law_role_server::{a_server_answers_each_in_channel_once, a_server_opens_once};
use law_role_server_in::what_a_server_refuses_of_in_channels;
use law_role_server_rows::what_a_server_refuses;

/// At each moment of a virtual connection at whose server no is legs came up but of in proxies that
/// were made for a channel of the client: of what an in proxy put a server refuses no IN_R1/A2 and
/// no IN_R2/A2 that comes next as unexpected, or for its cookie. IN_R1/A2 comes first, with the
/// client's connection and the channel that was announced last; no is leg below waits for its first
/// packet; and a number is left for each that IN_R2/A2 announces (successors are this profile's).
pub fn a_server_expects_successors()
    ensures { (numbers : Numbers) (reader : ℕ → ℕ) (moves : Moves) → IsMoment numbers reader moves
        → AreConnected reader moves
        → (n : ℕ) → ExpectsThose Announces rules (server_behind numbers moves).passage (is_leg n)
        (all_read_of (of_leg (is_leg n) (in_behind numbers moves n).put)) }
{
    a_client_names_its_out_channels();
    a_client_opens_in_channels_in_order();
    a_client_opens_once();
    a_client_replaces_in_channels_one_by_one();
    a_clients_leg_comes_up_once();
    a_server_answers_each_in_channel_once();
    a_server_opens_once();
    a_servers_leg_comes_up_once();
    an_in_proxy_in_turn_puts_in_order();
    an_out_proxy_forwards_what_came();
    an_out_proxy_opens_to_the_server_first();
    in_channels_are_announced_in_order();
    no_client_is_opened_early();
    replacements_go_round();
    what_a_server_refuses();
    what_a_server_refuses_of_in_channels();
}
