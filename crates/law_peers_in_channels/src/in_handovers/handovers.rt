//! A server expects that in proxies hand over to the successors of IN channels. This function does
//! nothing: its contract is the law.

ghost use Rattle.std.specs.Prelude.{ℕ};
ghost use Rattle.rh_server.specs.Servers.{rules};
ghost use Rattle.law_moves.specs.Wires.{of_leg};
ghost use Rattle.law_moves.specs.ReadBack.Reading.{all_read_of};
ghost use Rattle.law_role_inproxy.specs.Counted.{is_leg};
ghost use Rattle.law_peers_moments.specs.Moments.{IsMoment, Moves, Numbers, in_behind, server_behind};
ghost use Rattle.law_peers_in_channels.specs.ServerExpects.Expected.{ExpectsThose};
ghost use Rattle.law_peers_in_channels.specs.InHandovers.{HandsOver};

use crate::in_channels::{in_channels_are_announced_in_order, in_channels_are_answered_in_order};
use crate::server_expects::an_in_proxy_in_turn_puts_in_order;
use law_peers_moments::replacements_go_round;
use law_role_client::{a_client_names_its_in_channels, a_client_replaces_in_channels_one_by_one};
use law_role_server::{a_server_answers_each_in_channel_once, a_server_opens_once};
use law_role_server_in::what_a_server_refuses_of_in_channels;

/// At each moment of a virtual connection: of what an in proxy put a server refuses no IN_R1/A6
/// that comes next as unexpected, or for its cookie. A channel began on its is leg, and no IN_R1/A6
/// came there before; an IN_R1/A3 was put for the channel behind the last one of the leg, which has
/// an is leg of its own; and the IN_R1/A2 there named the cookie that IN_R1/A6 has (successors are
/// this profile's).
pub fn a_server_expects_handovers()
    ensures { (numbers : Numbers) (reader : ℕ → ℕ) (moves : Moves) → IsMoment numbers reader moves
        → (n : ℕ) → ExpectsThose HandsOver rules (server_behind numbers moves).passage (is_leg n)
        (all_read_of (of_leg (is_leg n) (in_behind numbers moves n).put)) }
{
    a_client_names_its_in_channels();
    a_client_replaces_in_channels_one_by_one();
    a_server_answers_each_in_channel_once();
    a_server_opens_once();
    an_in_proxy_in_turn_puts_in_order();
    in_channels_are_announced_in_order();
    in_channels_are_answered_in_order();
    replacements_go_round();
    what_a_server_refuses_of_in_channels();
}
