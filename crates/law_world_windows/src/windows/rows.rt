//! Where the rows of the roles refuse a PDU for its window, or an acknowledgement as out of range.
//! These functions do nothing: their contracts are the laws.

ghost use Rattle.std.specs.Prelude.{ℕ};
ghost use Rattle.rh_line.specs.declared.cause.Cause.TheVariants.{WindowExceeded};
ghost use Rattle.rh_line.specs.declared.leg.Leg.{Leg};
ghost use Rattle.rh_line.specs.declared.leg.LegKind.TheVariants.{ClientIn, ClientOut, InServer, OutServer};
ghost use Rattle.rh_shell.specs.declared.answers.Refused.TheVariants.{Window};
ghost use Rattle.rh_shell.specs.Shells.{Shell};
ghost use Rattle.rh_inproxy.specs.Machine as in_proxy;
ghost use Rattle.rh_outproxy.specs.Machine as out_proxy;
ghost use Rattle.rh_client.specs.Client as client;
ghost use Rattle.rh_server.specs.Servers as server;
ghost use Rattle.rh_company.specs.declared.event.Event.{Event};
ghost use Rattle.law_node_causes.specs.Closings.{ClosesWith};
ghost use Rattle.law_world_honest.specs.Honesty.Causes.{RowRefuses};
ghost use Rattle.law_world_windows.specs.Windowed.{RefusesOn};

use law_node_causes::{a_node_closes_once, causes_come_from_their_events};
use rh_shell::Role;

/// In whatever state a role is, a row of it refuses for a window an RPC PDU alone, and as out of
/// range an acknowledgement alone. A client does both on a co leg alone, and an out proxy on an os
/// leg alone; a server refuses for a window on an is leg alone, and as out of range on an os leg
/// alone; and an in proxy refuses for a window on a ci leg alone, and as out of range on an is leg
/// alone (MS-RPCH 3.2).
pub fn rows_refuse_on_their_legs()
    ensures client { RefusesOn client.rules ClientOut ClientOut }
    ensures server { RefusesOn server.rules InServer OutServer }
    ensures in_proxy { RefusesOn in_proxy.rules ClientIn InServer }
    ensures out_proxy { RefusesOn out_proxy.rules OutServer OutServer }
{}

/// Whatever its role is, a node closes with `WindowExceeded` of a leg only where a row of the role
/// refuses a packet or a PDU on that leg for that window.
pub fn a_window_is_exceeded_for_a_row<R: Role>()
    ensures { (node : Shell R) (event : Event) (leg : Leg) (reached edge : ℕ)
        → ClosesWith R.rules node event (WindowExceeded leg reached edge)
        → RowRefuses R.rules leg (Window (record { reached = reached; edge = edge })) }
{
    a_node_closes_once::<R>();
    causes_come_from_their_events::<R>();
}
