//! What comes to the client of a world of roles on its OUT channels. This function only calls the
//! laws that it stands on: its contract is the law.

ghost use Rattle.std.specs.Prelude.{ℕ, Some};
ghost use Rattle.rh_text.specs.declared.ends.Dir.TheVariants.{D};
ghost use Rattle.rh_sig.specs.declared.name.Pipe.TheVariants.{CoD};
ghost use Rattle.rh_line.specs.declared.leg.LegKind.TheVariants.{ClientOut};
ghost use Rattle.rh_client.specs.declared.state.ClientRole.{ClientRole};
ghost use Rattle.rh_wires.specs.Wires.{receiver};
ghost use Rattle.rh_nodes.specs.Settling.{leg_at};
ghost use Rattle.law_moves.specs.ReadBack.Well.{ReadsWell, is_named};
ghost use Rattle.law_node_history.specs.Carried.{end_node, events_of, heard_on};
ghost use Rattle.law_node_history.specs.Changes.{Change, MayChange, changed};
ghost use Rattle.law_node_history.specs.Histories.{noted};
ghost use Rattle.law_node_traces.specs.Traced.Ours.{deeds, rules};
ghost use Rattle.law_node_traces.specs.Traced.Recordings.{history_at};
ghost use Rattle.law_world_order.specs.FirstTexts.{IsPort};
ghost use Rattle.law_world_order.specs.Premises.{AtEachMoment, InNewWorlds};

use crate::world_asked::heads::an_out_proxy_hears_its_clients_request;
use law_moves::{texts_are_whole, texts_read_well, what_was_put_reads_well};
use law_node_traces::{a_recording_of_roles_is_known, what_is_heard_was_drawn_before};
use law_peers_expects::what_an_out_proxy_serves_reads_well;
use law_world_order::what_is_put_is_legible;
use rh_client::ClientRole;
use rh_inproxy::InProxyRole;
use rh_outproxy::OutProxyRole;
use rh_server::ServerRole;

/// In each world of new roles whose numbers are in their ranges, and of whose server the port is
/// one, at every moment that changes of lines and half steps reach, and behind each further change:
/// what the client heard on an OUT channel reads well, and each packet there has its name. No out
/// proxy answers an echo, in which a packet has none (MS-RPCH 2.1.2, 2.2.4).
pub fn what_comes_to_a_client_has_a_name<K>()
    ensures { InNewWorlds K (λ m w ours. IsPort ours.config.port
        → AtEachMoment m w (λ v by.
        (change : Change) → MayChange rules v change → (n : ℕ)
        → (let next = noted v (history_at m w v by.leads) change in
        let leg = leg_at ClientOut n in
        ReadsWell is_named (Some CoD) (heard_on leg (events_of next
        (end_node (changed rules m deeds v change).readers leg (receiver D))))))) }
{
    an_out_proxy_hears_its_clients_request::<K>();
    what_an_out_proxy_serves_reads_well();
    what_is_put_is_legible::<K>();
    a_recording_of_roles_is_known::<K>();
    what_is_heard_was_drawn_before::<K, ClientRole, ServerRole, InProxyRole, OutProxyRole>();
    what_was_put_reads_well();
    texts_are_whole();
    texts_read_well();
}
