//! What acknowledgements tell, and what is refused. These functions do nothing: their contracts are
//! the laws.

ghost use Rattle.std.specs.Prelude.{List, [], ℕ};
ghost use Rattle.std.specs.List.{AllByRecursion};
ghost use Rattle.rh_window.specs.Sides.{IsWindow};
ghost use Rattle.rh_http.specs.declared.config.ClientConfig.{ClientConfig};
ghost use Rattle.rh_inproxy.specs.declared.state.InProxyConfig.{InProxyConfig};
ghost use Rattle.rh_inproxy.specs.Machine.{rules};
ghost use Rattle.rh_inproxy.specs.State.{first};
ghost use Rattle.law_moves.specs.Moves.{AreAllowed, EndMove, Move, all_moved, started};
ghost use Rattle.law_moves.specs.Passages.Rising.{AreUpFirst};
ghost use Rattle.law_role_client.specs.Order.{AreAllowedMoves, client_moved};
ghost use Rattle.law_role_windows.specs.Acknowledging.Acks.{IsTrue};
ghost use Rattle.law_role_windows.specs.Acknowledging.Receiving.{ReceivesOn};
ghost use Rattle.law_role_windows.specs.Room.{ClientRoom, InProxyRoom};
ghost use Rattle.law_role_windows.specs.Room.{held_by_client, held_by_in_proxy};

use crate::holding::{what_a_client_holds, what_an_in_proxy_holds};
use law_role_client::a_client_tells_what_its_windows_told;

/// Whatever moves an in proxy makes, allowed or not: each acknowledgement to the client that it put
/// has the cookie of a channel that began on one of the client's legs, is of no more bytes of RPC
/// PDUs than came there, and has a window that is none too great (MS-RPCH 3.2.1).
pub fn an_in_proxy_acknowledges_what_came()
    ensures { (config : InProxyConfig) (moves : List Move) → IsWindow config.window
        → AllByRecursion (IsTrue (all_moved rules (started (first config)) moves).came)
        (all_moved rules (started (first config)) moves).put }
{}

/// Whatever moves an in proxy makes, allowed or not: on a leg of the client it refuses a PDU for
/// its window only where that ends behind the window with which the leg's channel opened, and
/// behind all that it acknowledged for that channel, where the client has the channel's cookie on
/// no other leg; and it refuses no packet there for a window, and nothing as out of range (MS-RPCH
/// 3.2).
pub fn an_in_proxy_receives_within_its_window()
    ensures { (config : InProxyConfig) (moves : List Move) (n : ℕ) → IsWindow config.window
        → ReceivesOn rules config.window n (all_moved rules (started (first config)) moves) }
{}

/// Whatever moves an in proxy makes: of the RPC PDUs that came on a leg of the client it holds no
/// more bytes than came. Each acknowledgement for the leg's channel, whose cookie the client has on
/// no other leg, tells no more than the proxy's window, which begins behind what it passed on
/// (MS-RPCH 3.2).
pub fn an_in_proxy_tells_within_its_window()
    ensures { (config : InProxyConfig) (moves : List Move) (n : ℕ) → IsWindow config.window
        → AreAllowed rules (started (first config)) moves
        → let p = all_moved rules (started (first config)) moves in
        InProxyRoom config.window (held_by_in_proxy n p.role) n p.came p.put }
{
    what_an_in_proxy_holds();
}

/// Whatever happens to a client, if PDUs and packets came only on legs that came up before: of the
/// RPC PDUs that came on an OUT leg it holds no more bytes than came. Each acknowledgement with the
/// cookie with which the leg came up, and no other OUT leg did, tells no more than the client's
/// window, which begins behind what was taken (MS-RPCH 3.2).
pub fn a_client_tells_within_its_window()
    ensures { (config : ClientConfig) (moves : List EndMove) (k : ℕ) → IsWindow config.window
        → AreAllowedMoves config moves → AreUpFirst [] moves
        → let p = (client_moved config moves).passage in
        ClientRoom config.window (held_by_client k p.role) k moves p.came p.put }
{
    what_a_client_holds();
    a_client_tells_what_its_windows_told();
}
