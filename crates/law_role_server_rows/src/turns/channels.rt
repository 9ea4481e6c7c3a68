//! On which OUT channels a server writes. Its function does nothing: its contract is the law.

ghost use Rattle.std.specs.Prelude.{List, ℕ};
ghost use Rattle.rh_server.specs.Servers.{acts, first, rules};
ghost use Rattle.law_moves.specs.Moves.{EndMove, all_end_moved, end_started};
ghost use Rattle.law_role_server_rows.specs.InTurn.Channels.{WritesOnBegun};

use crate::puts::{a_server_greets_first, a_server_writes_in_turn};

/// Whatever moves a server makes, allowed or not: an RPC PDU or a packet stands on an os leg, but
/// for acknowledgements to out proxies, only behind as many OUT_R1/A9 as there are os legs before
/// that one. Behind OUT_R1/A9 stand acknowledgements to the out proxy alone on its leg, and behind
/// END/B1 no RPC PDU and no other END/B1 (MS-RPCH 3.2.5; successors are this profile's).
pub fn a_server_writes_on_channels_that_began()
    ensures { (window : ℕ) (moves : List EndMove) → WritesOnBegun
        (all_end_moved rules acts (end_started (first window)) moves).passage }
{
    a_server_greets_first();
    a_server_writes_in_turn();
}
