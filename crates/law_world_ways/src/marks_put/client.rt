//! What a client puts on the legs that it leaves. Its function does nothing: its contract is the
//! law.

ghost use Rattle.std.specs.Prelude.{◌≡◌, ℕ, List, true};
ghost use Rattle.std.specs.List.{list_any};
ghost use Rattle.rh_http.specs.declared.config.ClientConfig.{ClientConfig};
ghost use Rattle.rh_client.specs.Client.{rules};
ghost use Rattle.rh_client.specs.State.{ci};
ghost use Rattle.law_moves.specs.Moves.{EndMove};
ghost use Rattle.law_role_client.specs.Order.{AreAllowedMoves, client_moved, put_log};
ghost use Rattle.law_node_streams.specs.Streams.{is_end_up_on};
ghost use Rattle.law_node_ends.specs.Passed.{IsDoneBehindEnd};

use law_node_causes::a_clients_leg_comes_up_once;
use law_role_client::a_client_gives_in_order;

/// Whatever happens to a client: on each of its ci legs that came up and is in use no more it put
/// IN_R1/A5 or END/A1.
pub fn a_client_puts_a_mark()
    ensures { (config : ClientConfig) (moves : List EndMove) → AreAllowedMoves config moves
        → (let p = client_moved config moves in
        (n : ℕ) → list_any (is_end_up_on (ci n)) moves ≡ true
        → IsDoneBehindEnd rules p.passage.role (ci n) (put_log p.passage.put n)) }
{
    a_client_gives_in_order();
    a_clients_leg_comes_up_once();
}
