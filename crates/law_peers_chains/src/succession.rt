//! In which order legs replace one another. This function calls the laws that it stands on: its
//! contract is the law.

ghost use Rattle.std.specs.Prelude.{ℕ, List};
ghost use Rattle.rh_line.specs.declared.leg.LegKind.{LegKind};
ghost use Rattle.rh_audit.specs.declared.packet.Met.{Met};
ghost use Rattle.law_audit.specs.Chains.Successors.{AreSuccessors};
ghost use Rattle.law_peers_moments.specs.Moments.{IsMoment, Moves, Numbers};
ghost use Rattle.law_peers_chains.specs.Shown.{AreShown};
ghost use Rattle.law_peers_chains.specs.Turns.{BeginInTurn, HaveOwn};

use law_peers_expects::no_client_is_opened_early;
use law_peers_in_channels::{
    an_in_proxy_in_turn_puts_in_order, in_channels_are_announced_in_order,
};
use law_peers_moments::replacements_go_round;
use law_role_client::{
    a_client_names_its_in_channels, a_client_opens_once, a_client_replaces_in_channels_one_by_one,
    a_client_replaces_out_channels_one_by_one,
};
use law_role_client_rows::{
    a_client_opens_in_channels_in_order, a_client_opens_out_channels_in_order,
};
use law_role_outproxy::{an_out_proxy_forwards_what_came, an_out_proxy_opens_to_the_server_first};
use law_role_server::{a_server_opens_once, a_server_replaces_out_channels_one_by_one};

/// At each moment of a virtual connection, where on each leg of a kind a front was seen of what was
/// put there towards the server, which has all that came at the other end: the first of these legs
/// whose first packet was seen connects, each other one replaces the last one before it, by the
/// newest cookie that was seen of that one, and no two had one cookie last. So a leg of a number
/// above 1 has a first packet only where the leg of the channel before has one (MS-RPCH 2.2.4;
/// successors are this profile's).
pub fn each_leg_replaces_the_one_before_it()
    ensures successors { (numbers : Numbers) (reader : ℕ → ℕ) (moves : Moves)
        → IsMoment numbers reader moves → (kind : LegKind) (mets : ℕ → List Met)
        → AreShown numbers reader moves kind mets → AreSuccessors mets }
    ensures turns { (numbers : Numbers) (reader : ℕ → ℕ) (moves : Moves)
        → IsMoment numbers reader moves → (kind : LegKind) (mets : ℕ → List Met)
        → AreShown numbers reader moves kind mets → BeginInTurn kind reader mets }
    ensures own { (numbers : Numbers) (reader : ℕ → ℕ) (moves : Moves)
        → IsMoment numbers reader moves → (kind : LegKind) (mets : ℕ → List Met)
        → AreShown numbers reader moves kind mets → HaveOwn kind reader mets }
{
    a_client_names_its_in_channels();
    a_client_opens_in_channels_in_order();
    a_client_opens_once();
    a_client_opens_out_channels_in_order();
    a_client_replaces_in_channels_one_by_one();
    a_client_replaces_out_channels_one_by_one();
    a_server_opens_once();
    a_server_replaces_out_channels_one_by_one();
    an_in_proxy_in_turn_puts_in_order();
    an_out_proxy_forwards_what_came();
    an_out_proxy_opens_to_the_server_first();
    in_channels_are_announced_in_order();
    no_client_is_opened_early();
    replacements_go_round();
}
