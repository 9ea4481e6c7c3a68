//! What the nodes of a world refuse, and on which legs. These functions do nothing: their contracts
//! are the laws.

ghost use Rattle.std.specs.Prelude.{◌≡◌, ℕ};
ghost use Rattle.rh_rts.specs.declared.command.Cookie.{Cookie};
ghost use Rattle.rh_line.specs.declared.cause.Cause.TheVariants.{CookieMismatch, Unexpected};
ghost use Rattle.rh_line.specs.declared.leg.Leg.{Leg};
ghost use Rattle.rh_line.specs.declared.leg.LegKind.TheVariants.{ClientOut};
ghost use Rattle.rh_record.specs.declared.answer.Who.TheVariants.{Client as AtClient, Out};
ghost use Rattle.rh_record.specs.declared.answer.Who.TheVariants.{Server as AtServer};
ghost use Rattle.rh_inproxy.specs.State.{InProxy};
ghost use Rattle.rh_outproxy.specs.OutProxy.{OutProxy};
ghost use Rattle.rh_client.specs.declared.state.ClientRole.{ClientRole};
ghost use Rattle.rh_server.specs.States.{Server};
ghost use Rattle.rh_nodes.specs.Opening.{Makers};
ghost use Rattle.rh_nodes.specs.World.{World};
ghost use Rattle.law_node_history.specs.Changes.{Change, Leads, MayChange};
ghost use Rattle.law_node_history.specs.Closes.{ClosesNode};
ghost use Rattle.law_node_history.specs.Histories.{IsNew};
ghost use Rattle.law_node_traces.specs.Traced.Ours.{AreOurs, deeds, rules};
ghost use Rattle.law_node_traces.specs.OwnLegs.{IsOfOutProxy, IsOfServer};

use crate::own_legs::nodes::each_node_refuses_on_its_own_legs;
use law_node_causes::{causes_come_from_their_events, events_close_with_their_causes};
use law_node_history::each_node_is_what_its_history_made;
use rh_client::ClientRole;
use rh_inproxy::InProxyRole;
use rh_outproxy::OutProxyRole;
use rh_server::ServerRole;

/// In each world of new roles, at every moment that changes reach: where a further change closes
/// the client with `Unexpected` or `CookieMismatch`, that is of an OUT leg. On the client's IN legs
/// no packet comes to it, and it has no other legs (MS-RPCH 3.2.2; profile).
pub fn a_client_refuses_on_out_legs_alone<K>()
    ensures unexpected { (m : Makers K InProxy OutProxy)
        (w : World K ClientRole Server InProxy OutProxy) → IsNew w
        → AreOurs m w.company w.cast
        → (v : World K ClientRole Server InProxy OutProxy) → Leads rules m deeds w v
        → (change : Change) (leg : Leg) (place : ℕ)
        → ClosesNode rules v change AtClient (Unexpected leg place) → leg.kind ≡ ClientOut }
    ensures cookie { (m : Makers K InProxy OutProxy)
        (w : World K ClientRole Server InProxy OutProxy) → IsNew w
        → AreOurs m w.company w.cast
        → (v : World K ClientRole Server InProxy OutProxy) → Leads rules m deeds w v
        → (change : Change) (leg : Leg) (expected got : Cookie)
        → ClosesNode rules v change AtClient (CookieMismatch leg expected got)
        → leg.kind ≡ ClientOut }
{
    each_node_refuses_on_its_own_legs();
    each_node_is_what_its_history_made::<K, ClientRole, ServerRole, InProxyRole, OutProxyRole>();
}

/// In every world, where a change closes an out proxy with one of these causes, that is of an OUT
/// leg of the client or of one to the server: no bytes of another leg go to an out proxy (MS-RPCH
/// 3.2.4; profile).
pub fn an_out_proxy_refuses_on_its_own_legs_alone<K>()
    ensures unexpected { (v : World K ClientRole Server InProxy OutProxy) (change : Change)
        → MayChange rules v change → (k : ℕ) (leg : Leg) (place : ℕ)
        → ClosesNode rules v change (Out k) (Unexpected leg place) → IsOfOutProxy leg }
    ensures cookie { (v : World K ClientRole Server InProxy OutProxy) (change : Change)
        → MayChange rules v change → (k : ℕ) (leg : Leg) (expected got : Cookie)
        → ClosesNode rules v change (Out k) (CookieMismatch leg expected got)
        → IsOfOutProxy leg }
{
    causes_come_from_their_events::<OutProxyRole>();
    events_close_with_their_causes::<OutProxyRole>();
}

/// And where one closes the server with one of them, that is of a leg to it: no bytes of a leg of
/// the client go to the server (MS-RPCH 3.2.5; profile).
pub fn a_server_refuses_on_its_own_legs_alone<K>()
    ensures unexpected { (v : World K ClientRole Server InProxy OutProxy) (change : Change)
        → MayChange rules v change → (leg : Leg) (place : ℕ)
        → ClosesNode rules v change AtServer (Unexpected leg place) → IsOfServer leg }
    ensures cookie { (v : World K ClientRole Server InProxy OutProxy) (change : Change)
        → MayChange rules v change → (leg : Leg) (expected got : Cookie)
        → ClosesNode rules v change AtServer (CookieMismatch leg expected got) → IsOfServer leg }
{
    causes_come_from_their_events::<ServerRole>();
    events_close_with_their_causes::<ServerRole>();
}
