//! What comes at any node of a world of roles. This function calls the laws that it stands on: its
//! contract is the law.

ghost use Rattle.std.specs.Prelude.{◌≡◌, ℕ, true};
ghost use Rattle.std.specs.List.{list_all};
ghost use Rattle.rh_rts.specs.declared.command.Cookie.{Cookie};
ghost use Rattle.rh_line.specs.declared.cause.Cause.TheVariants.{CookieMismatch, Unexpected};
ghost use Rattle.rh_line.specs.declared.leg.Leg.{Leg};
ghost use Rattle.rh_record.specs.declared.answer.Who.{Who};
ghost use Rattle.law_node_history.specs.Carried.{happened};
ghost use Rattle.law_node_history.specs.Changes.{Change, MayChange, of_line};
ghost use Rattle.law_node_history.specs.Closes.{ClosesNode};
ghost use Rattle.law_node_traces.specs.Traced.Ours.{rules};
ghost use Rattle.law_node_traces.specs.Traced.Recordings.{history_at};
ghost use Rattle.law_world_order.specs.FirstTexts.{IsPort};
ghost use Rattle.law_world_order.specs.Premises.{AtEachMoment, InNewWorlds};
ghost use Rattle.law_world_expected.specs.Roles.{HaveCookies};

use crate::roles::{
    no_in_proxy_refuses_what_comes, no_out_proxy_refuses_its_client,
    no_out_proxy_refuses_its_server, no_server_refuses_its_in_proxies,
    no_server_refuses_its_out_proxies,
};
use crate::worlds::no_client_refuses_what_comes;
use law_node_traces::own_legs::worlds::{
    a_client_refuses_on_out_legs_alone, a_server_refuses_on_its_own_legs_alone,
    an_out_proxy_refuses_on_its_own_legs_alone,
};

/// In each world of new roles whose numbers are in their ranges, and of whose server the port is
/// one, at every moment that changes of lines alone reach, and by which no two legs of the client
/// of one kind came up under one cookie and no OUT leg under the cookie of zeros: no further change
/// closes any node with `Unexpected` or `CookieMismatch`, on any leg (MS-RPCH 3.2; successors and
/// the end are this profile's).
pub fn no_node_refuses_what_comes<K>()
    ensures unexpected { InNewWorlds K (λ m w ours. IsPort ours.config.port
        → AtEachMoment m w (λ v by.
        list_all of_line by.leads.changes ≡ true
        → HaveCookies (happened (history_at m w v by.leads).client)
        → (change : Change) → MayChange rules v change → (node : Who) (leg : Leg) (place : ℕ)
        → ClosesNode rules v change node (Unexpected leg place) → ⊥)) }
    ensures cookie { InNewWorlds K (λ m w ours. IsPort ours.config.port
        → AtEachMoment m w (λ v by.
        list_all of_line by.leads.changes ≡ true
        → HaveCookies (happened (history_at m w v by.leads).client)
        → (change : Change) → MayChange rules v change → (node : Who) (leg : Leg)
        (expected got : Cookie)
        → ClosesNode rules v change node (CookieMismatch leg expected got) → ⊥)) }
{
    a_client_refuses_on_out_legs_alone::<K>();
    an_out_proxy_refuses_on_its_own_legs_alone::<K>();
    a_server_refuses_on_its_own_legs_alone::<K>();
    no_client_refuses_what_comes::<K>();
    no_in_proxy_refuses_what_comes::<K>();
    no_out_proxy_refuses_its_client::<K>();
    no_out_proxy_refuses_its_server::<K>();
    no_server_refuses_its_in_proxies::<K>();
    no_server_refuses_its_out_proxies::<K>();
}
