//! What a client's channels begin with, and to which it switches. These functions do nothing:
//! their contracts are the laws.

ghost use Rattle.std.specs.Prelude.{List};
ghost use Rattle.rh_http.specs.declared.config.ClientConfig.{ClientConfig};
ghost use Rattle.law_moves.specs.Moves.{EndMove};
ghost use Rattle.law_role_client.specs.Order.{AreAllowedMoves};
ghost use Rattle.law_role_client_rows.specs.Putting.{OpensInChannels, OpensOutChannels, SwitchesInOrder};

/// Whatever happens to a client: what it put on each IN channel is a front of the request, the
/// packet that begins the channel, and then RPC PDUs, acknowledgements to the out proxy, OUT_R1/A7
/// to the server, END/A1, IN_R1/A5 and Pings. The first channel begins by CONN/B1 with the cookie
/// with which its leg came up; each other by IN_R1/A1 with that cookie, and with the cookie with
/// which the channel below it came up, unless it is the second and the client was opened by CONN/C2
/// before anything was put on the first. An IN_R1/A5 has the cookie with which the next channel
/// came up. Nothing stands on a leg of number 0 (MS-RPCH 2.2.4; successors are this profile's).
pub fn a_client_opens_in_channels_in_order()
    ensures { (config : ClientConfig) (moves : List EndMove) → AreAllowedMoves config moves
        → OpensInChannels config moves }
{}

/// Whatever happens to a client: what it put on its first OUT channel is a front of the request and
/// CONN/A1, with the cookie with which its leg came up; on each other, a front of the request,
/// OUT_R1/A3 and OUT_R2/C1, with that cookie, and with the cookie with which the channel below it
/// came up, unless it is the second and the client was opened by CONN/C2 before anything was put on
/// the first. Nothing stands on a leg of number 0 (MS-RPCH 2.2.4; successors are this profile's).
pub fn a_client_opens_out_channels_in_order()
    ensures { (config : ClientConfig) (moves : List EndMove) → AreAllowedMoves config moves
        → OpensOutChannels config moves }
{}

/// Whatever happens to a client: each OUT_R1/A7 that it put, over all its IN channels, names the
/// cookie with which the next OUT channel came up: the first that of the second, and so on
/// (profile).
pub fn a_client_switches_in_order()
    ensures { (config : ClientConfig) (moves : List EndMove) → AreAllowedMoves config moves
        → SwitchesInOrder config moves }
{}
