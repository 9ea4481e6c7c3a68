//! The RPC PDUs that in proxies put in a world of roles. This function calls the laws that it
//! stands on: its contract is the law.

ghost use Rattle.law_world_order.specs.Premises.{AtEachMoment, InNewWorlds};
ghost use Rattle.law_world_expected.specs.PdusInWorlds.{PassInTurn};

use law_peers_in_channels::{
    an_in_proxy_holds_back_pdus_of_a_successor, pdus_of_a_successor_come_behind_its_handover,
};
use law_world_order::a_world_of_roles_is_at_a_moment;

/// In each world of new roles whose numbers are in their ranges, at every moment that changes of
/// lines and half steps reach: no in proxy put an RPC PDU of a later ci leg before IN_R1/A5 came on
/// the ci legs before it, and none stands on an is leg before IN_R1/A6 came at the server on the
/// leg of each IN channel before the one with which that leg begins (MS-RPCH 3.2.1, 3.2.3;
/// successors are this profile's).
pub fn rpc_pdus_pass_in_turn<K>()
    ensures { InNewWorlds K (λ m w ours. AtEachMoment m w (λ v by.
        PassInTurn m w ours v by)) }
{
    a_world_of_roles_is_at_a_moment::<K>();
    an_in_proxy_holds_back_pdus_of_a_successor();
    pdus_of_a_successor_come_behind_its_handover();
}
