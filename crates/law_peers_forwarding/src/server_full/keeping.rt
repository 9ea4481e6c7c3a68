//! What a server forwards came to it. This function does nothing: its contract is the law.

ghost use Rattle.std.specs.Prelude.{List, ℕ};
ghost use Rattle.law_moves.specs.Moves.{EndMove};
ghost use Rattle.law_peers_forwarding.specs.ServerFull.Keeping.{ForwardsWhatCame};

/// Whatever moves a server makes, allowed or not: of each channel no more acknowledgements to the
/// client wait, or were put since a front of the moves, than waited there and came on is legs since
/// (MS-RPCH 3.2.1).
pub fn a_server_forwards_what_came()
    ensures { (window : ℕ) (front later : List EndMove) → ForwardsWhatCame window front later }
{}
