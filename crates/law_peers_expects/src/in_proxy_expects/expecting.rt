//! What an in proxy expects. Its function calls the laws that it stands on: its contract is the
//! law.

ghost use Rattle.std.specs.Prelude.{ℕ, ◌≡◌, ◌≤◌};
ghost use Rattle.rh_inproxy.specs.Machine.{rules};
ghost use Rattle.rh_client.specs.State.{ci};
ghost use Rattle.law_moves.specs.Wires.{of_leg};
ghost use Rattle.law_moves.specs.ReadBack.Reading.{all_read_of};
ghost use Rattle.law_role_inproxy.specs.Counted.{is_leg};
ghost use Rattle.law_peers_moments.specs.Expecting.{Expects};
ghost use Rattle.law_peers_moments.specs.Moments.{IsMoment, Moves, Numbers};
ghost use Rattle.law_peers_moments.specs.Moments.{client_behind, in_behind, server_behind};
ghost use Rattle.law_peers_expects.specs.InProxyExpects.Expected.{AreReadWhereUp};

use crate::in_proxy_expects::announcing::an_in_proxy_announces_what_came;
use crate::in_proxy_expects::legs::an_in_proxys_legs_came_up;
use crate::in_proxy_expects::opening::no_client_is_opened_early;
use law_peers_moments::replacements_go_round;
use law_role_client::a_client_replaces_in_channels_one_by_one;
use law_role_client_rows::{
    a_client_opens_in_channels_in_order, no_pdu_follows_end, nothing_follows_in_r1_a5,
};
use law_role_inproxy::{an_in_proxy_puts_for_what_came, what_an_in_proxy_refuses};
use law_role_server_rows::a_server_answers_in_proxies_in_order;

/// At each moment of a virtual connection: on the legs of a client that it reads, and on its leg to
/// the server, an in proxy refuses nothing that comes next there as unexpected, or for its cookie.
/// Of ci legs that is said where each that came up at an in proxy is one that it reads, as it is in
/// each world: else the next one might be up there with no first packet to come, and IN_R1/A5 on
/// the one before it would be unexpected (profile).
pub fn an_in_proxy_expects_what_comes()
    ensures client { (numbers : Numbers) (reader : ℕ → ℕ) (moves : Moves)
        → IsMoment numbers reader moves → AreReadWhereUp reader moves
        → (m n : ℕ) → reader n ≡ m → 1 ≤ m
        → Expects rules (in_behind numbers moves m) (ci n)
        (all_read_of (of_leg (ci n) (client_behind numbers moves).passage.put)) }
    ensures server { (numbers : Numbers) (reader : ℕ → ℕ) (moves : Moves)
        → IsMoment numbers reader moves → (m : ℕ)
        → Expects rules (in_behind numbers moves m) (is_leg m)
        (all_read_of (of_leg (is_leg m) (server_behind numbers moves).passage.put)) }
{
    an_in_proxy_announces_what_came();
    an_in_proxys_legs_came_up();
    no_client_is_opened_early();
    a_client_replaces_in_channels_one_by_one();
    a_client_opens_in_channels_in_order();
    nothing_follows_in_r1_a5();
    no_pdu_follows_end();
    what_an_in_proxy_refuses();
    an_in_proxy_puts_for_what_came();
    replacements_go_round();
    a_server_answers_in_proxies_in_order();
}
