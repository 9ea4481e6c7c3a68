//! What comes at the nodes of a world of roles, where they expect it. This function does nothing:
//! its contract is the law.

ghost use Rattle.std.specs.Prelude.{◌≡◌, ℕ, true};
ghost use Rattle.std.specs.List.{list_all};
ghost use Rattle.rh_line.specs.declared.leg.Leg.{Leg};
ghost use Rattle.rh_record.specs.declared.answer.Who.TheVariants.{Client as AtClient, In, Out};
ghost use Rattle.rh_record.specs.declared.answer.Who.TheVariants.{Server as AtServer};
ghost use Rattle.rh_client.specs.State.{co};
ghost use Rattle.law_node_history.specs.Carried.{happened};
ghost use Rattle.law_node_history.specs.Changes.{of_line};
ghost use Rattle.law_node_traces.specs.Traced.Recordings.{history_at};
ghost use Rattle.law_world_order.specs.Premises.{AreDistinct, AtEachMoment, InNewWorlds};
ghost use Rattle.law_world_order.specs.FirstTexts.{IsPort};
ghost use Rattle.law_world_windows.specs.Hops.{is_leg, os_leg};
ghost use Rattle.law_world_expected.specs.Roles.{ClientExpects, HaveCookies, InExpects, IsByLines};
ghost use Rattle.law_world_expected.specs.Roles.{IsExpected, OfClient, OutExpectsClient};
ghost use Rattle.law_world_expected.specs.Roles.{OutExpectsServer, RefusesNone, ServerExpectsIn};
ghost use Rattle.law_world_expected.specs.Roles.{ServerExpectsOut, WorldsExpect, WorldsServe};

use crate::known::roles_know_their_legs;
use law_role_client_rows::a_client_puts_no_ping_first;
use law_world_honest::what_comes_to_a_client_has_a_name;
use law_world_windows::{nodes_keep_their_laws, what_was_put_reads_back, worlds_keep_their_laws};

/// Where in each world of new roles whose numbers are in their ranges, at every moment that changes
/// of lines and half steps reach, a node expects what comes next on a leg, and no two legs of the
/// client of one kind came up under one cookie: no further change closes that node with
/// `Unexpected` or `CookieMismatch` of the leg. So it is of an in proxy on each of its legs, of an
/// out proxy on the client's and on the server's, and of the server on those of in proxies and on
/// those of out proxies. An out proxy may expect what the server put only where no OUT leg of the
/// client came up under the cookie of zeros, and the server what an in proxy put only where changes
/// of lines alone led there. Where the port of the client's server is one, so it is of the client
/// on its OUT legs with `Unexpected`, and of an out proxy that expects what its client put where it
/// goes on and reads frames there, whatever the cookies (MS-RPCH 3.2; profile).
pub fn no_node_refuses_what_it_expects<K>()
    ensures in_proxies { WorldsExpect K (OfClient AreDistinct) InExpects
        → InNewWorlds K (λ m w ours. AtEachMoment m w (λ v by.
        AreDistinct (happened (history_at m w v by.leads).client)
        → (k : ℕ) (leg : Leg) → RefusesNone v (In k) leg)) }
    ensures out_client { WorldsExpect K (OfClient AreDistinct) OutExpectsClient
        → InNewWorlds K (λ m w ours. AtEachMoment m w (λ v by.
        AreDistinct (happened (history_at m w v by.leads).client)
        → (k n : ℕ) → RefusesNone v (Out k) (co n))) }
    ensures out_server { WorldsExpect K (OfClient HaveCookies) OutExpectsServer
        → InNewWorlds K (λ m w ours. AtEachMoment m w (λ v by.
        HaveCookies (happened (history_at m w v by.leads).client)
        → (k n : ℕ) → RefusesNone v (Out k) (os_leg n))) }
    ensures server_in { WorldsExpect K IsByLines ServerExpectsIn
        → InNewWorlds K (λ m w ours. AtEachMoment m w (λ v by.
        list_all of_line by.leads.changes ≡ true
        → AreDistinct (happened (history_at m w v by.leads).client)
        → (n : ℕ) → RefusesNone v AtServer (is_leg n))) }
    ensures server_out { WorldsExpect K (OfClient AreDistinct) ServerExpectsOut
        → InNewWorlds K (λ m w ours. AtEachMoment m w (λ v by.
        AreDistinct (happened (history_at m w v by.leads).client)
        → (n : ℕ) → RefusesNone v AtServer (os_leg n))) }
    ensures client { WorldsExpect K (OfClient AreDistinct) ClientExpects
        → InNewWorlds K (λ m w ours. IsPort ours.config.port
        → AtEachMoment m w (λ v by.
        AreDistinct (happened (history_at m w v by.leads).client)
        → (n : ℕ) → IsExpected v AtClient (co n))) }
    ensures out_serving { WorldsServe K
        → InNewWorlds K (λ m w ours. IsPort ours.config.port
        → AtEachMoment m w (λ v by. (k n : ℕ) → RefusesNone v (Out k) (co n))) }
{
    what_comes_to_a_client_has_a_name::<K>();
    a_client_puts_no_ping_first();
    roles_know_their_legs();
    worlds_keep_their_laws::<K>();
    what_was_put_reads_back();
    nodes_keep_their_laws();
}
