//! What a server puts on is legs. Its function does nothing: its contract is the law.

ghost use Rattle.std.specs.Prelude.{List, ℕ};
ghost use Rattle.rh_server.specs.Servers.{acts, first, rules};
ghost use Rattle.law_moves.specs.Moves.{AreAllowedAtEnd, EndMove, all_end_moved, end_started};
ghost use Rattle.law_role_server_rows.specs.InTurn.Answers.{AnswersInOrder};

/// Whatever moves a server makes that are allowed: what it put on an is leg, as far as it was put,
/// is the greeting; then CONN/B3 where CONN/B2 came on the leg, which is the first, or IN_R1/B2
/// where IN_R1/A2 came on it; then acknowledgements, each with the cookie of a packet that began a
/// channel on the leg; and last IN_R1/B1, once at most, where IN_R1/A6 came on it (MS-RPCH 3.2.5;
/// replacement is this profile's).
pub fn a_server_answers_in_proxies_in_order()
    ensures { (window : ℕ) (moves : List EndMove)
        → AreAllowedAtEnd rules acts (end_started (first window)) moves
        → AnswersInOrder (all_end_moved rules acts (end_started (first window)) moves).passage }
{}
