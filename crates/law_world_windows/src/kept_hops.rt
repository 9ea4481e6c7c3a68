//! The hops are kept. These functions do nothing: their contracts are the laws.

ghost use Rattle.std.specs.Prelude.{List};
ghost use Rattle.rh_record.specs.declared.line.Line.{Line};
ghost use Rattle.rh_world.specs.declared.any_world.AnyWorld.TheVariants.{Before};
ghost use Rattle.rh_world.specs.Any.{after};
ghost use Rattle.law_world_order.specs.Premises.{AtEachMoment, InNewWorlds};
ghost use Rattle.law_world_windows.specs.KeptHops.{HopsAreKept, KeepsHops};

use crate::client_hops::no_hop_of_a_client_closes_a_node;
use crate::known::{hops_keep_their_laws, worlds_keep_their_laws};
use crate::out_proxy::an_out_proxy_receives_within_its_window;
use crate::server::a_server_receives_within_its_window;
use law_world_order::cookies_are_drawn_for_channels;
use law_world_reports::windows_hold_in_a_world_of_roles;
use rh_world::WorldConfig;

/// In each world of new roles whose numbers are in their ranges, at every moment that changes of
/// lines and half steps reach, of each in proxy's hop to the server and of the server's to each out
/// proxy: the bytes of RPC PDUs that came are at most those that were sent, those at most the edge
/// that the sender was told, that at most the edge that the receiver told, and that at most what it
/// passed on and its window. Each acknowledgement that the receiver put, so each that is on its
/// way, is of no more than came (MS-RPCH 3.2).
pub fn hops_on_one_leg_are_kept<K>()
    ensures { InNewWorlds K (λ m w ours. AtEachMoment m w (λ v by.
        HopsAreKept m w ours v by)) }
{
    worlds_keep_their_laws::<K>();
    hops_keep_their_laws();
    a_server_receives_within_its_window();
    an_out_proxy_receives_within_its_window();
}

/// So it is at every moment of every recording, which is behind any of its lines; and so it is of
/// the client's hop to each in proxy that reads a leg of it, and of each out proxy's to the client.
pub fn hops_of_a_recording_are_kept()
    ensures { (before : List Line) → KeepsHops (after Before before) }
{
    windows_hold_in_a_world_of_roles();
    cookies_are_drawn_for_channels::<WorldConfig>();
    hops_on_one_leg_are_kept::<WorldConfig>();
    no_hop_of_a_client_closes_a_node::<WorldConfig>();
}
