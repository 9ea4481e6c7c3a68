//! What must have passed where a server refuses what comes on its is legs. Its function does
//! nothing: its contract is the law.

ghost use Rattle.std.specs.Prelude.{IsTrue, List, ℕ, ◌+◌, ◌≤◌};
ghost use Rattle.rh_server.specs.States.{in_leg, is_some};
ghost use Rattle.rh_server.specs.Servers.{acts, first, rules};
ghost use Rattle.law_moves.specs.Moves.{AreAllowedAtEnd, EndMove, all_end_moved, end_started};
ghost use Rattle.law_role_server.specs.Order.{came_up};
ghost use Rattle.law_role_server.specs.Counted.Counting.{in_came, is_in_r2_a2};
ghost use Rattle.law_role_server_in.specs.Handovers.{RefusesInR1A6};
ghost use Rattle.law_role_server_in.specs.Refusing.{RefusesInFor, in_ups};

use law_role_server::{
    a_server_answers_each_in_channel_once, a_server_opens_once, a_server_takes_in_order,
};

/// Whatever moves a server makes that are allowed, its logs tell why it refuses what comes on an is
/// leg. As unexpected it refuses an RPC PDU only before both CONN/A2 and CONN/B2 came, where no
/// channel of the leg is open, or behind END there; END/A2 only first, or where no channel of the
/// leg is open, or behind another; IN_R2/A2 only first, before the server is open, where the answer
/// to another waits, where no number is left, or where no channel of the leg is open; IN_R1/A2 only
/// behind others, before the server is open, or where a leg below is kept on which no channel
/// began. No channel is open where none began on the leg, where it waits, so some IN_R1/A3 was not
/// put and no window was told there, or where IN_R1/A6 came there. As another predecessor than it
/// expects it refuses one that the last announcement on the newest leg didn't name.
///
/// At a front of the moves the channel of a leg had opened where one had begun there, and no fewer
/// IN_R1/A3 were put or due than IN_R1/A2 had come. The server refuses IN_R1/A6 as unexpected only
/// where no channel began on its leg, where another IN_R1/A6 came there, or where no IN_R1/A3 was
/// put for a channel that opened behind that of the leg: at each front at which that had opened, no
/// fewer were put or due than were put in all. It refuses the cookie of an IN_R1/A6 only where it
/// is another than that which the last IN_R1/A2 on some leg names; and each channel that had not
/// begun at a front at which that of the IN_R1/A6 had opened, and had opened at some front, is on
/// that leg.
///
/// Whether its moves are allowed or not, the newest number of an IN channel is at most how many is
/// legs came up and how often IN_R2/A2 came together; and each is leg that is kept came up.
pub fn what_a_server_refuses_of_in_channels()
    ensures refuses { (window : ℕ) (moves : List EndMove)
        → AreAllowedAtEnd rules acts (end_started (first window)) moves
        → RefusesInFor (all_end_moved rules acts (end_started (first window)) moves).passage }
    ensures handovers { (window : ℕ) (moves : List EndMove)
        → AreAllowedAtEnd rules acts (end_started (first window)) moves
        → RefusesInR1A6 window moves }
    ensures numbers { (window : ℕ) (moves : List EndMove)
        → let p = (all_end_moved rules acts (end_started (first window)) moves).passage in
        p.role.newest_in ≤ in_ups moves + in_came is_in_r2_a2 p }
    ensures legs { (window : ℕ) (moves : List EndMove) (n : ℕ)
        → let p = (all_end_moved rules acts (end_started (first window)) moves).passage in
        IsTrue (is_some (in_leg n p.role.ins)) → IsTrue (came_up moves n) }
{
    a_server_answers_each_in_channel_once();
    a_server_opens_once();
    a_server_takes_in_order();
}
