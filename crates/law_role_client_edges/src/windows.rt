//! The edges that a client told, and those that it knows. These functions do nothing: their
//! contracts are the laws.

ghost use Rattle.std.specs.Prelude.{List, []};
ghost use Rattle.rh_http.specs.declared.config.ClientConfig.{ClientConfig};
ghost use Rattle.law_moves.specs.Moves.{EndMove};
ghost use Rattle.law_moves.specs.Passages.Rising.{AreUpFirst};
ghost use Rattle.law_role_client.specs.Order.{AreAllowedMoves, client_moved};
ghost use Rattle.law_role_client_edges.specs.Knowing.{AreAnswers, KnowsWindows};
ghost use Rattle.law_role_client_edges.specs.Telling.{TellsWindows};

/// Whatever happens to a client, if PDUs and packets came only on legs that came up before: of the
/// current OUT channel, and of the next one in its line, the client put all that the channel's
/// window told, once the first packet of the channel was put: by CONN/A1 or OUT_R1/A3, or by an
/// acknowledgement to the out proxy with the channel's cookie, which it put on an IN channel. So
/// what it takes as told was put (MS-RPCH 3.2).
pub fn a_client_told_what_its_windows_told()
    ensures { (config : ClientConfig) (moves : List EndMove) → AreAllowedMoves config moves
        → AreUpFirst [] moves → TellsWindows (client_moved config moves).passage }
{}

/// Whatever happens to a client, if CONN/C2 came only once the leg of the first IN channel came up:
/// of an IN channel in use, whose window was told, and with whose cookie no other IN channel came
/// up, the edge up to which the client sends is none below that window, and none below any that an
/// acknowledgement told of the channel that came since then, on whichever leg. The n-th of CONN/C2,
/// IN_R1/A4 and IN_R2/A4 tells the window of IN channel n. So it holds back no PDU for which its in
/// proxy told room since then (MS-RPCH 3.2).
pub fn a_client_knows_what_its_in_proxies_told()
    ensures { (config : ClientConfig) (moves : List EndMove) → AreAllowedMoves config moves
        → AreAnswers [] moves → KnowsWindows moves (client_moved config moves).passage }
{}
