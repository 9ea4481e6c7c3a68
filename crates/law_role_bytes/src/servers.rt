//! What the windows of a server count. These functions do nothing: their contracts are the laws.

ghost use Rattle.std.specs.Prelude.{◌≡◌, List, Some, ℕ};
ghost use Rattle.rh_window.specs.Sides.{IsWindow};
ghost use Rattle.rh_server.specs.Servers.{acts, first, rules};
ghost use Rattle.rh_server.specs.States.{out_leg};
ghost use Rattle.rh_server.specs.declared.state.OutLeg.{OutLeg};
ghost use Rattle.law_moves.specs.Moves.{AreAllowedAtEnd, EndMove, all_end_moved, end_started};
ghost use Rattle.law_role_inproxy.specs.Counted.{is_leg};
ghost use Rattle.law_role_outproxy.specs.Sending.{os_leg};
ghost use Rattle.law_role_bytes.specs.Bytes.{CountsCame, CountsPut};

use law_role_server::a_server_takes_in_order;

/// Whatever happens to a server, allowed or not: the window of each os leg that it keeps counts as
/// sent exactly the bytes of the RPC PDUs that it put there (MS-RPCH 3.2).
pub fn a_server_counts_what_it_sends()
    ensures { (window n : ℕ) (moves : List EndMove) (leg : OutLeg)
        → (let p = (all_end_moved rules acts (end_started (first window)) moves).passage in
        out_leg n p.role.outs ≡ Some leg → CountsPut (os_leg n) p.put leg.window) }
{}

/// Whatever happens to a server: the window of its current channel counts as received exactly the
/// bytes of the RPC PDUs that came on the channel's is leg (MS-RPCH 3.2).
pub fn a_server_counts_what_it_receives()
    ensures { (window : ℕ) (moves : List EndMove) → IsWindow window
        → AreAllowedAtEnd rules acts (end_started (first window)) moves
        → (let p = (all_end_moved rules acts (end_started (first window)) moves).passage in
        CountsCame (is_leg p.role.current.leg) p.came p.role.line.current.window) }
{
    a_server_takes_in_order();
}
