//! The hops of a client in a world of roles. This function does nothing: its contract is the law.

ghost use Rattle.std.specs.Prelude.{ℕ};
ghost use Rattle.rh_line.specs.declared.cause.Cause.TheVariants.{OutOfRange, WindowExceeded};
ghost use Rattle.rh_line.specs.declared.leg.Leg.{Leg};
ghost use Rattle.rh_record.specs.declared.answer.Who.TheVariants.{Client as AtClient, In, Out};
ghost use Rattle.rh_client.specs.declared.state.ClientRole.{ClientRole};
ghost use Rattle.rh_client.specs.State.{ci, co};
ghost use Rattle.law_node_history.specs.Carried.{happened};
ghost use Rattle.law_node_history.specs.Changes.{Change, MayChange};
ghost use Rattle.law_node_history.specs.Closes.{ClosesNode};
ghost use Rattle.law_node_traces.specs.Traced.Ours.{rules};
ghost use Rattle.law_node_traces.specs.Traced.Recordings.{history_at};
ghost use Rattle.law_world_order.specs.Flows.{IsFlowing, numbers_of};
ghost use Rattle.law_world_order.specs.Premises.{AreDistinct, AtEachMoment, InNewWorlds};
ghost use Rattle.law_world_windows.specs.ClientHops.{HasOneWindow};
ghost use Rattle.law_world_windows.specs.KeptAfar.{ClientHopsAreKept};

use crate::known::{nodes_keep_their_laws, what_was_put_reads_back, worlds_keep_their_laws};
use law_node_history::a_leg_is_read_at_its_ends;
use law_role_client::{
    a_client_acknowledges_what_came, a_client_begins_each_channel_once,
    a_client_receives_within_its_window, a_client_sends_as_it_was_told,
    a_client_tells_what_its_windows_told,
};
use law_role_client_rows::a_client_opens_out_channels_in_order;
use law_role_outproxy::an_out_proxy_sends_within_the_clients_window;
use law_role_windows::{
    a_client_tells_within_its_window, a_server_passes_acknowledgements_on,
    a_server_tells_what_it_was_told, an_in_proxy_acknowledges_what_came,
    an_in_proxy_passes_acknowledgements_on, an_in_proxy_receives_within_its_window,
    an_in_proxy_tells_its_window, an_in_proxy_tells_within_its_window,
    an_out_proxy_passes_acknowledgements_on, an_out_proxy_tells_what_it_was_told,
};
use rh_client::ClientRole;
use rh_inproxy::InProxyRole;
use rh_outproxy::OutProxyRole;
use rh_server::ServerRole;

/// In each world of new roles whose numbers are in their ranges, and whose in proxies have one
/// window, at every moment that changes of lines and half steps reach, and by which no two legs of
/// the client of one kind came up under one cookie: no further change closes a node for a hop
/// between the client and its proxies. No in proxy and no out proxy closes with `WindowExceeded` or
/// `OutOfRange` for what the client sent, nor the client for what an out proxy sent; and no out
/// proxy closes with `OutOfRange` at all. Each of these hops is kept: what came is at most what was
/// sent, that is within an edge that the sender knows, which the receiver told, and what this told
/// is within its window, which begins behind what it passed on (MS-RPCH 3.2, 3.2.1).
pub fn no_hop_of_a_client_closes_a_node<K>()
    ensures in_window { InNewWorlds K (λ m w ours. HasOneWindow (numbers_of ours)
        → AtEachMoment m w (λ v by.
        AreDistinct (happened (history_at m w v by.leads).client)
        → (change : Change) → MayChange rules v change → (k n reached edge : ℕ)
        → ClosesNode rules v change (In k) (WindowExceeded (ci n) reached edge) → ⊥)) }
    ensures in_range { InNewWorlds K (λ m w ours. HasOneWindow (numbers_of ours)
        → AtEachMoment m w (λ v by.
        AreDistinct (happened (history_at m w v by.leads).client)
        → (change : Change) → MayChange rules v change → (k n command value : ℕ)
        → ClosesNode rules v change (In k) (OutOfRange (ci n) command value) → ⊥)) }
    ensures client_window { InNewWorlds K (λ m w ours. HasOneWindow (numbers_of ours)
        → AtEachMoment m w (λ v by.
        AreDistinct (happened (history_at m w v by.leads).client)
        → (change : Change) → MayChange rules v change → (n reached edge : ℕ)
        → ClosesNode rules v change AtClient (WindowExceeded (co n) reached edge) → ⊥)) }
    ensures client_range { InNewWorlds K (λ m w ours. HasOneWindow (numbers_of ours)
        → AtEachMoment m w (λ v by.
        AreDistinct (happened (history_at m w v by.leads).client)
        → (change : Change) → MayChange rules v change → (n command value : ℕ)
        → ClosesNode rules v change AtClient (OutOfRange (co n) command value) → ⊥)) }
    ensures out_window { InNewWorlds K (λ m w ours. HasOneWindow (numbers_of ours)
        → AtEachMoment m w (λ v by.
        AreDistinct (happened (history_at m w v by.leads).client)
        → (change : Change) → MayChange rules v change → (k n reached edge : ℕ)
        → ClosesNode rules v change (Out k) (WindowExceeded (co n) reached edge) → ⊥)) }
    ensures out_range { InNewWorlds K (λ m w ours. HasOneWindow (numbers_of ours)
        → AtEachMoment m w (λ v by.
        AreDistinct (happened (history_at m w v by.leads).client)
        → (change : Change) → MayChange rules v change → (k : ℕ) (leg : Leg)
        (command value : ℕ)
        → ClosesNode rules v change (Out k) (OutOfRange leg command value) → ⊥)) }
    ensures kept { InNewWorlds K (λ m w ours. HasOneWindow (numbers_of ours)
        → AtEachMoment m w (λ v by.
        AreDistinct (happened (history_at m w v by.leads).client)
        → (flowing : IsFlowing (numbers_of ours) w v (history_at m w v by.leads))
        → ClientHopsAreKept m w ours v (history_at m w v by.leads) flowing)) }
{
    a_client_sends_as_it_was_told();
    a_client_begins_each_channel_once();
    a_client_opens_out_channels_in_order();
    a_client_receives_within_its_window();
    a_client_acknowledges_what_came();
    a_client_tells_what_its_windows_told();
    a_client_tells_within_its_window();
    an_in_proxy_tells_within_its_window();
    an_in_proxy_receives_within_its_window();
    an_in_proxy_acknowledges_what_came();
    an_in_proxy_passes_acknowledgements_on();
    an_in_proxy_tells_its_window();
    a_server_passes_acknowledgements_on();
    a_server_tells_what_it_was_told();
    an_out_proxy_sends_within_the_clients_window();
    an_out_proxy_passes_acknowledgements_on();
    an_out_proxy_tells_what_it_was_told();
    worlds_keep_their_laws::<K>();
    a_leg_is_read_at_its_ends::<K, ClientRole, ServerRole, InProxyRole, OutProxyRole>();
    what_was_put_reads_back();
    nodes_keep_their_laws();
}
