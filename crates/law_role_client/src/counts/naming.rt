//! A client names the connection and its channels.

ghost use Rattle.std.specs.Prelude.{List};
ghost use Rattle.rh_http.specs.declared.config.ClientConfig.{ClientConfig};
ghost use Rattle.rh_client.specs.Client.{acts, rules};
ghost use Rattle.rh_client.specs.State.{first};
ghost use Rattle.law_moves.specs.Moves.{AreAllowedAtEnd, EndMove, all_end_moved, end_started};
ghost use Rattle.law_role_client.specs.Counted.Naming.{NamesIns, NamesOuts};

/// Whatever happens to a client: its CONN/B1 and its IN_R1/A1 name the connection. Each IN_R1/A1
/// names as predecessor what began on the channel before it, and each IN_R1/A5 as successor what
/// began on the channel behind it; both began before. Of the first channel, which CONN/B1 begins,
/// that holds once this was put. Each channel begins once, and so has one cookie.
pub fn a_client_names_its_in_channels()
    ensures { (config : ClientConfig) (moves : List EndMove)
        → AreAllowedAtEnd rules acts (end_started (first config)) moves
        → NamesIns config.connection
        (all_end_moved rules acts (end_started (first config)) moves).passage }
{}

/// Whatever happens to a client: its CONN/A1 and its OUT_R1/A3 name the connection. Each OUT_R1/A3
/// names as predecessor what began on the channel before it, and the OUT_R1/A7 name as successors
/// what began on the second channel, the third one, and so on; all of these began before. Of the
/// first channel, which CONN/A1 begins, that holds once this was put. Each channel begins once, and
/// so has one cookie.
pub fn a_client_names_its_out_channels()
    ensures { (config : ClientConfig) (moves : List EndMove)
        → AreAllowedAtEnd rules acts (end_started (first config)) moves
        → NamesOuts config.connection
        (all_end_moved rules acts (end_started (first config)) moves).passage }
{}
