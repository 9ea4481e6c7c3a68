//! What a server puts before an acknowledgement that waits. This function does nothing: its
//! contract is the law.

ghost use Rattle.std.specs.Prelude.{List, ℕ};
ghost use Rattle.law_moves.specs.Moves.{EndMove};
ghost use Rattle.law_peers_room.specs.ServerRoom.Overtaking.{FewOvertake};

/// Whatever moves a server makes, allowed or not: while an acknowledgement to the client waits that
/// waited behind a front of the moves, the IN_R1/A3 and IN_R2/A3 that it puts are no more bytes
/// than of those that were due there, and 311. For where an answer goes before it, the meter of the
/// writing channel refused it, and so has less than 312 bytes left; and the next channel has room
/// for it and for all that wait before it, if its lifetime has 312 bytes more than what waited
/// behind the front, of 56 bytes each (MS-RPCH 3.2.1, 3.2.5; the meters are this profile's).
pub fn few_answers_overtake_an_acknowledgement()
    ensures { (window : ℕ) (front later : List EndMove) → FewOvertake window front later }
{}
