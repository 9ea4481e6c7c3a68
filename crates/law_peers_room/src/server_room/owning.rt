//! Which legs a server keeps for what waits. This function does nothing: its contract is the law.

ghost use Rattle.std.specs.Prelude.{List, ℕ};
ghost use Rattle.law_moves.specs.Moves.{EndMove};
ghost use Rattle.law_role_server_in.specs.Handovers.{passed};
ghost use Rattle.law_peers_room.specs.ServerRoom.Owning.{AcksHaveLegs};

/// Whatever moves a server makes, allowed or not: no more acknowledgements to out proxies wait
/// there than it keeps os legs for whose channel one waits, the writing one, which is one at most,
/// and the others (MS-RPCH 3.2.1).
pub fn acknowledgements_have_their_legs()
    ensures { (window : ℕ) (moves : List EndMove) → AcksHaveLegs (passed window moves).role }
{}
