//! A client replaces its channels one by one.

ghost use Rattle.std.specs.Prelude.{List};
ghost use Rattle.rh_http.specs.declared.config.ClientConfig.{ClientConfig};
ghost use Rattle.rh_client.specs.Client.{acts, rules};
ghost use Rattle.rh_client.specs.State.{first};
ghost use Rattle.law_moves.specs.Moves.{AreAllowedAtEnd, EndMove, all_end_moved, end_started};
ghost use Rattle.law_role_client.specs.Counted.Replacing.{AsksWhereWanted, ReplacesIns, ReplacesOuts};

/// Whatever happens to a client: it asks for a successor of an IN channel by IN_R1/A1 only once
/// the one before it is the writing channel. Each IN_R1/A5 that it put has an answer that came, and
/// each answer an IN_R1/A1 that it put; of these at most one more was put than answers came. The
/// number of the writing channel, and how far a replacement has come, are told by these counts.
/// IN_R1/A1 stands once on each IN channel from the second one on, and IN_R1/A5 once on each from
/// the first one on.
pub fn a_client_replaces_in_channels_one_by_one()
    ensures { (config : ClientConfig) (moves : List EndMove)
        → AreAllowedAtEnd rules acts (end_started (first config)) moves
        → ReplacesIns (all_end_moved rules acts (end_started (first config)) moves).passage }
{}

/// Whatever happens to a client: it asks for a successor of an OUT channel by OUT_R1/A3 only once
/// OUT_R1/A10 came on the channel before the current one. Each OUT_R1/A10 that came follows an
/// OUT_R1/A7 that it put, each of these an OUT_R1/A6 that came, and each of these an OUT_R1/A3 that
/// it put; of these at most one more was put than OUT_R1/A10 came. The number of the current
/// channel, and how far a replacement has come, are told by these counts. OUT_R1/A3 stands once on
/// each OUT channel from the second one on, and OUT_R1/A6 and OUT_R1/A10 once on each from the
/// first one on.
pub fn a_client_replaces_out_channels_one_by_one()
    ensures { (config : ClientConfig) (moves : List EndMove)
        → AreAllowedAtEnd rules acts (end_started (first config)) moves
        → ReplacesOuts (all_end_moved rules acts (end_started (first config)) moves).passage }
{}

/// Whatever happens to a client: it asks for no more successors of OUT channels than were asked for
/// by OUT_R1/A2; and until its work is done it asked for all of them, but for one that is under way
/// and one that waits.
pub fn a_client_asks_where_a_successor_is_wanted()
    ensures { (config : ClientConfig) (moves : List EndMove)
        → AreAllowedAtEnd rules acts (end_started (first config)) moves
        → AsksWhereWanted (all_end_moved rules acts (end_started (first config)) moves).passage }
{}
