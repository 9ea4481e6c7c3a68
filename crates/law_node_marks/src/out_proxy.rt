//! When an out proxy is done, and what its legs that end are to it. These functions do nothing:
//! their contracts are the laws.

ghost use Rattle.std.specs.Prelude.{◌≡◌, List, true, false};
ghost use Rattle.std.specs.List.{AllByRecursion};
ghost use Rattle.std.specs.declared.option.Option.{Option};
ghost use Rattle.law_order.specs.Items.{has_handover};
ghost use Rattle.rh_sig.specs.declared.name.Pipe.{Pipe};
ghost use Rattle.rh_line.specs.declared.leg.Leg.{Leg};
ghost use Rattle.rh_shell.specs.Shells.{begun, ended};
ghost use Rattle.rh_outproxy.specs.declared.out_proxy.TheConstants.{ROOMS};
ghost use Rattle.rh_outproxy.specs.declared.state.OutProxyConfig.{OutProxyConfig};
ghost use Rattle.rh_outproxy.specs.Machine.{rules};
ghost use Rattle.rh_outproxy.specs.OutProxy.{new_proxy};
ghost use Rattle.law_moves.specs.Moves.{AreAllowed, Move, all_moved, is_at_work, started};
ghost use Rattle.law_moves.specs.Moving.{Event, after_events};
ghost use Rattle.law_role_outproxy.specs.Order.{came_log, put_items, server_leg};
ghost use Rattle.law_role_marks.specs.Marking.{has_passed};
ghost use Rattle.law_role_marks.specs.Marks.{marks_client};
ghost use Rattle.law_node_streams.specs.Streams.{Stream};
ghost use Rattle.law_node_ends.specs.Passed.{AsksNoEcho, HeadsAre};
ghost use Rattle.law_node_marks.specs.Losing.{KeepsLeg, marking};

use law_moves::roles_move_by_their_rules;
use law_role_marks::an_out_proxy_only_marks_behind_a_mark;
use law_role_outproxy::an_out_proxy_keeps_order;
use rh_outproxy::OutProxyRole;

/// An out proxy that loses no leg but that to its client, and is asked for no echo, is done only
/// once it put OUT_R1/A10, for OUT_R1/A9 that came.
pub fn an_out_proxy_is_over_behind_its_mark()
    ensures { (config : OutProxyConfig) (moves : List Move)
        → AreAllowed (marking rules marks_client) (started (new_proxy config)) moves
        → AllByRecursion (HeadsAre (AsksNoEcho false)) moves
        → (let p = all_moved (marking rules marks_client) (started (new_proxy config)) moves in
        is_at_work rules p.role ≡ false
        → (has_handover (put_items config.number p.put) ≡ true)
        × (has_handover (came_log p.came config.number) ≡ true)) }
{
    an_out_proxy_keeps_order();
}

/// Whatever happens at the node of an out proxy that is asked for no echo, but that it is told that
/// its leg to the server is lost: it is done only once it put OUT_R1/A10, for OUT_R1/A9 that came.
pub fn an_out_proxy_that_kept_its_server_is_over_behind_its_mark()
    ensures { (config : OutProxyConfig) (pipe : Leg → Option Pipe) (events : List Event)
        (stream : Stream rules (new_proxy config) ROOMS pipe events)
        → AllByRecursion (HeadsAre (AsksNoEcho false)) stream.leads.moves
        → AllByRecursion (KeepsLeg (server_leg config.number)) events
        → is_at_work rules (after_events rules (begun (new_proxy config) ROOMS) events).role ≡ false
        → (has_handover (put_items config.number stream.passage.put) ≡ true)
        × (has_handover (came_log stream.passage.came config.number) ≡ true) }
{
    an_out_proxy_keeps_order();
    roles_move_by_their_rules::<OutProxyRole>();
}

/// Whatever happens at the node of an out proxy: once it put OUT_R1/A10 or END/B2, no end of a leg
/// closes it.
pub fn no_end_closes_an_out_proxy_behind_its_mark()
    ensures { (config : OutProxyConfig) (pipe : Leg → Option Pipe) (events : List Event)
        (stream : Stream rules (new_proxy config) ROOMS pipe events)
        → has_passed (put_items config.number stream.passage.put) ≡ true → (leg : Leg)
        → (let node = after_events rules (begun (new_proxy config) ROOMS) events in
        (ended rules node leg).0.course ≡ node.course) }
{
    an_out_proxy_only_marks_behind_a_mark();
}
