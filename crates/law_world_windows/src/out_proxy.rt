//! How an out proxy receives from the server. Its function does nothing: its contract is the law.

ghost use Rattle.std.specs.Prelude.{List};
ghost use Rattle.rh_window.specs.Sides.{IsWindow};
ghost use Rattle.rh_outproxy.specs.declared.state.OutProxyConfig.{OutProxyConfig};
ghost use Rattle.rh_outproxy.specs.Machine.{rules};
ghost use Rattle.rh_outproxy.specs.OutProxy.{new_proxy};
ghost use Rattle.law_moves.specs.Moves.{AreAllowed, Move, all_moved, started};
ghost use Rattle.law_world_windows.specs.Holding.{held_by_out_proxy};
ghost use Rattle.law_world_windows.specs.Hops.{HasRoomOn, ReceivesWithin, os_leg};

use law_role_windows::what_an_out_proxy_holds;

/// Whatever moves an out proxy makes: it refuses a PDU of the server for its window only where that
/// ends behind all that it told there; and each acknowledgement that it put there is of no more
/// than came, with a window that is none too great. All that it told there is within its window,
/// which begins behind what it passed on (MS-RPCH 3.2).
pub fn an_out_proxy_receives_within_its_window()
    ensures refused { (config : OutProxyConfig) (moves : List Move) → IsWindow config.window
        → AreAllowed rules (started (new_proxy config)) moves
        → ReceivesWithin rules (os_leg config.number)
        (all_moved rules (started (new_proxy config)) moves) }
    ensures told { (config : OutProxyConfig) (moves : List Move) → IsWindow config.window
        → AreAllowed rules (started (new_proxy config)) moves
        → HasRoomOn config.window held_by_out_proxy (os_leg config.number)
        (all_moved rules (started (new_proxy config)) moves) }
{
    what_an_out_proxy_holds();
}
