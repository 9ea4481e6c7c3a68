//! Order through a server. These functions do nothing: their contracts are the laws.

ghost use Rattle.std.specs.Prelude.{ℕ, List};
ghost use Rattle.law_order.specs.Giving.{GiverLaw};
ghost use Rattle.law_order.specs.Taking.{TakerLaw};
ghost use Rattle.rh_server.specs.Servers.{rules, acts, first};
ghost use Rattle.law_moves.specs.Moves.{AreAllowedAtEnd, EndMove, all_end_moved, end_started};
ghost use Rattle.law_role_server.specs.Order.{giver_of, got, has_leg, sent, taker_of};

/// Whatever happens to a server, what it was given is what it put on its os legs, in their order,
/// and then what is queued; each os leg below the writing one ended with its handover mark, and END
/// was put only where no more is given and the queue is empty.
pub fn a_server_gives_in_order()
    ensures { (window : ℕ) (moves : List EndMove)
        → let p = all_end_moved rules acts (end_started (first window)) moves in
        GiverLaw (giver_of p.given p.passage.role) (sent p) }
{}

/// Whatever happens to a server: what was taken from it, and then what it holds of the current
/// channel, came on its is legs up to the current one, in order. A channel is current only behind
/// the handover mark (IN_R1/A6) of each leg below it, and the end is kept exactly where END came on
/// a channel that is current or was.
pub fn a_server_takes_in_order()
    ensures { (window : ℕ) (moves : List EndMove)
        → AreAllowedAtEnd rules acts (end_started (first window)) moves
        → let p = all_end_moved rules acts (end_started (first window)) moves in
        TakerLaw (taker_of p.taken p.passage.role) (has_leg moves p.passage.role) (got p) }
{}
