//! How a server replaces OUT channels. Its function does nothing: its contract is the law.

ghost use Rattle.std.specs.Prelude.{List, ℕ};
ghost use Rattle.rh_server.specs.Servers.{acts, first, rules};
ghost use Rattle.law_moves.specs.Moves.{EndMove, all_end_moved, end_started};
ghost use Rattle.law_role_server.specs.Counted.Replacing.{AreInTurn, ArePutInTurn, AreReplaced};

/// Whatever moves a server makes, allowed or not: it writes on the channel behind as many as
/// OUT_R1/A9 was put, and by the stage of the replacement that is under way OUT_R1/A1 and OUT_R1/A5
/// were put, and OUT_R1/A4 and OUT_R1/A8 came, as often or once more; so each of the five follows
/// the one before. OUT_R1/A1, OUT_R1/A5 and OUT_R1/A9 stand once on each os leg from the first on,
/// OUT_R1/A4 from the second on, up to their count, and on no other.
pub fn a_server_replaces_out_channels_one_by_one()
    ensures counts { (window : ℕ) (moves : List EndMove)
        → AreReplaced (all_end_moved rules acts (end_started (first window)) moves).passage }
    ensures order { (window : ℕ) (moves : List EndMove)
        → AreInTurn (all_end_moved rules acts (end_started (first window)) moves).passage }
    ensures legs { (window : ℕ) (moves : List EndMove)
        → ArePutInTurn (all_end_moved rules acts (end_started (first window)) moves).passage }
{}
