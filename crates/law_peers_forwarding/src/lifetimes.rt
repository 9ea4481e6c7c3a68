//! Which lifetimes a server is told of OUT channels. This function calls the laws that it stands
//! on: its contract is the law.

ghost use Rattle.std.specs.Prelude.{ℕ};
ghost use Rattle.rh_keep.specs.declared.range.TheConstants.{LEAST_LIFETIME};
ghost use Rattle.law_peers_moments.specs.Moments.{IsMoment, Moves, Numbers, server_behind};
ghost use Rattle.law_peers_expects.specs.OutProxyExpects.Early.{HaveLifetimes};
ghost use Rattle.law_peers_room.specs.ServerRoom.Overtaking.{AreLong};

use law_peers_in_channels::an_in_proxy_in_turn_puts_in_order;
use law_role_outproxy::an_out_proxy_opens_to_the_server_first;

/// At each moment of a virtual connection whose OUT channels have lifetimes in their range: each
/// that came at the server, by CONN/A2 or OUT_R1/A4, is no less than the least of that range
/// (MS-RPCH 2.2.3.5, 2.2.4).
pub fn lifetimes_are_long()
    ensures { (numbers : Numbers) (reader : ℕ → ℕ) (moves : Moves)
        → IsMoment numbers reader moves → HaveLifetimes numbers
        → AreLong LEAST_LIFETIME (server_behind numbers moves).passage.came }
{
    an_in_proxy_in_turn_puts_in_order();
    an_out_proxy_opens_to_the_server_first();
}
