//! How a server opens a connection. Its functions do nothing: their contracts are the laws.

ghost use Rattle.std.specs.Prelude.{◌≡◌, List, ℕ};
ghost use Rattle.std.specs.List.{AllByRecursion};
ghost use Rattle.rh_rts.specs.declared.command.TheConstants.{TO_CLIENT};
ghost use Rattle.rh_line.specs.declared.leg.LegKind.TheVariants.{OutServer};
ghost use Rattle.rh_server.specs.Servers.{acts, first, rules};
ghost use Rattle.law_moves.specs.Moves.{AreAllowedAtEnd, EndMove, all_end_moved, end_started};
ghost use Rattle.law_moves.specs.Passages.Passing.{of_kind};
ghost use Rattle.law_role_server.specs.Counted.Counting.{in_came, is_ack_to, is_conn_c1, out_put};
ghost use Rattle.law_role_server.specs.Counted.BeforeC1.{HaveRoom, MayGoBefore};
ghost use Rattle.law_role_server.specs.Counted.Opening.{OpensOnce};

/// Whatever moves a server makes, allowed or not: CONN/A2 and CONN/B2 came once at most, and
/// CONN/C1 and CONN/B3 were put once at most. It is opening exactly until both of the former came;
/// before, nothing but greetings was put on os legs, nor CONN/B3, and no IN channel was replaced.
pub fn a_server_opens_once()
    ensures { (window : ℕ) (moves : List EndMove)
        → OpensOnce (all_end_moved rules acts (end_started (first window)) moves).passage }
{}

/// Whatever happens to a server: where CONN/C1 was not put, nothing was put on os legs but
/// greetings and acknowledgements to out proxies, as long as no acknowledgement to the client came,
/// and the lifetime that CONN/A2 told had room for CONN/C1.
pub fn a_server_puts_conn_c1_first()
    ensures { (window : ℕ) (moves : List EndMove)
        → AreAllowedAtEnd rules acts (end_started (first window)) moves
        → let p = (all_end_moved rules acts (end_started (first window)) moves).passage in
        HaveRoom p.came → in_came (is_ack_to TO_CLIENT) p ≡ 0 → out_put is_conn_c1 p ≡ 0
        → AllByRecursion MayGoBefore (of_kind OutServer p.put) }
{}
