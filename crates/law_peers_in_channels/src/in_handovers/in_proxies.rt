//! A server expects what comes next from its in proxies. This function calls the laws that it
//! stands on: its contract is the law.

ghost use Rattle.std.specs.Prelude.{ℕ};
ghost use Rattle.rh_server.specs.Servers.{rules};
ghost use Rattle.law_moves.specs.Wires.{of_leg};
ghost use Rattle.law_moves.specs.ReadBack.Reading.{all_read_of};
ghost use Rattle.law_role_inproxy.specs.Counted.{is_leg};
ghost use Rattle.law_peers_moments.specs.Expecting.{Expects};
ghost use Rattle.law_peers_moments.specs.Moments.{IsMoment, Moves, Numbers, in_behind, server_behind};
ghost use Rattle.law_peers_in_channels.specs.InSuccessors.Connected.{AreConnected};

use crate::in_handovers::handovers::a_server_expects_handovers;
use crate::in_successors::a_server_expects_successors;
use crate::server_expects::a_server_expects_all_but_successors;

/// At each moment of a virtual connection where each is leg that came up at the server is that of
/// an IN channel of its number, which came up at the client and which the in proxy of that number
/// reads: of what an in proxy put, on a leg that was up the server refuses nothing that comes next
/// as unexpected, or for its cookie (MS-RPCH 3.2.5; successors are this profile's).
pub fn a_server_expects_its_in_proxies()
    ensures { (numbers : Numbers) (reader : ℕ → ℕ) (moves : Moves) → IsMoment numbers reader moves
        → AreConnected reader moves
        → (n : ℕ) → Expects rules (server_behind numbers moves).passage (is_leg n)
        (all_read_of (of_leg (is_leg n) (in_behind numbers moves n).put)) }
{
    a_server_expects_all_but_successors();
    a_server_expects_handovers();
    a_server_expects_successors();
}
