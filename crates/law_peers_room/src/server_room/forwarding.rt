//! What waits at a server to be forwarded. This function does nothing: its contract is the law.

ghost use Rattle.std.specs.Prelude.{List, ℕ};
ghost use Rattle.law_moves.specs.Moves.{EndMove};
ghost use Rattle.law_role_server_in.specs.Handovers.{passed};
ghost use Rattle.law_peers_room.specs.ServerRoom.Forwarding.{ForwardsAcks};

/// Whatever moves a server makes, allowed or not: what waits there to be forwarded are
/// acknowledgements to the client and to out proxies, of each channel one to each at most. It
/// refuses a packet for want of room only where that is an acknowledgement, none of its channel
/// to its destination waits, and sixteen others wait beside those for other legs than the writing
/// one, or twenty in all (MS-RPCH 3.2.1; the room is this profile's).
pub fn what_a_server_forwards()
    ensures { (window : ℕ) (moves : List EndMove) → ForwardsAcks (passed window moves).role }
{}
