//! What comes at the proxies and the server of a world of roles. These functions do nothing: their
//! contracts are the laws.

ghost use Rattle.std.specs.Prelude.{◌≡◌, ℕ, true};
ghost use Rattle.std.specs.List.{list_all};
ghost use Rattle.rh_rts.specs.declared.command.Cookie.{Cookie};
ghost use Rattle.rh_line.specs.declared.cause.Cause.TheVariants.{CookieMismatch, Unexpected};
ghost use Rattle.rh_line.specs.declared.leg.Leg.{Leg};
ghost use Rattle.rh_record.specs.declared.answer.Who.TheVariants.{In, Out, Server as AtServer};
ghost use Rattle.rh_client.specs.State.{co};
ghost use Rattle.law_node_history.specs.Carried.{happened};
ghost use Rattle.law_node_history.specs.Changes.{Change, MayChange, of_line};
ghost use Rattle.law_node_history.specs.Closes.{ClosesNode};
ghost use Rattle.law_node_traces.specs.Traced.Ours.{rules};
ghost use Rattle.law_node_traces.specs.Traced.Recordings.{history_at};
ghost use Rattle.law_world_order.specs.Premises.{AreDistinct, AtEachMoment, InNewWorlds};
ghost use Rattle.law_world_order.specs.FirstTexts.{IsPort};
ghost use Rattle.law_world_windows.specs.Hops.{is_leg, os_leg};
ghost use Rattle.law_world_expected.specs.Roles.{HaveCookies};

use crate::connected::is_legs_of_lines_are_connected;
use crate::expecting::no_node_refuses_what_it_expects;
use law_node_traces::a_recording_of_roles_is_known;
use law_peers_expects::{an_in_proxy_expects_what_comes, an_out_proxy_expects_its_server};
use law_peers_in_channels::{
    a_server_expects_its_in_proxies, a_server_expects_its_out_proxies,
    no_ping_goes_first_to_a_server,
};
use law_role_client_rows::a_client_puts_no_ping_first;
use law_world_honest::an_out_proxy_of_a_world_expects_its_client;
use law_world_order::a_world_of_roles_is_at_a_moment;

/// In each world of new roles whose numbers are in their ranges, at every moment that changes of
/// lines and half steps reach, and by which no two legs of the client of one kind came up under one
/// cookie: no further change closes an in proxy with `Unexpected` or `CookieMismatch`, on any leg.
/// What the client and the server put for it comes in its turn, and names the cookies that it
/// knows (MS-RPCH 3.2.3; successors are this profile's).
pub fn no_in_proxy_refuses_what_comes<K>()
    ensures unexpected { InNewWorlds K (λ m w ours. AtEachMoment m w (λ v by.
        AreDistinct (happened (history_at m w v by.leads).client)
        → (change : Change) → MayChange rules v change → (k : ℕ) (leg : Leg) (place : ℕ)
        → ClosesNode rules v change (In k) (Unexpected leg place) → ⊥)) }
    ensures cookie { InNewWorlds K (λ m w ours. AtEachMoment m w (λ v by.
        AreDistinct (happened (history_at m w v by.leads).client)
        → (change : Change) → MayChange rules v change → (k : ℕ) (leg : Leg)
        (expected got : Cookie)
        → ClosesNode rules v change (In k) (CookieMismatch leg expected got) → ⊥)) }
{
    no_node_refuses_what_it_expects::<K>();
    a_world_of_roles_is_at_a_moment::<K>();
    a_recording_of_roles_is_known::<K>();
    an_in_proxy_expects_what_comes();
    a_client_puts_no_ping_first();
}

/// And none closes the server with these causes for what an out proxy put (MS-RPCH 3.2.5;
/// successors are this profile's).
pub fn no_server_refuses_its_out_proxies<K>()
    ensures unexpected { InNewWorlds K (λ m w ours. AtEachMoment m w (λ v by.
        AreDistinct (happened (history_at m w v by.leads).client)
        → (change : Change) → MayChange rules v change → (n place : ℕ)
        → ClosesNode rules v change AtServer (Unexpected (os_leg n) place) → ⊥)) }
    ensures cookie { InNewWorlds K (λ m w ours. AtEachMoment m w (λ v by.
        AreDistinct (happened (history_at m w v by.leads).client)
        → (change : Change) → MayChange rules v change → (n : ℕ)
        (expected got : Cookie)
        → ClosesNode rules v change AtServer (CookieMismatch (os_leg n) expected got) → ⊥)) }
{
    no_node_refuses_what_it_expects::<K>();
    a_world_of_roles_is_at_a_moment::<K>();
    a_server_expects_its_out_proxies();
    no_ping_goes_first_to_a_server();
}

/// And where changes of lines alone led to that moment, none closes it with these causes for what
/// an in proxy put (MS-RPCH 3.2.5; successors are this profile's).
pub fn no_server_refuses_its_in_proxies<K>()
    ensures unexpected { InNewWorlds K (λ m w ours. AtEachMoment m w (λ v by.
        list_all of_line by.leads.changes ≡ true
        → AreDistinct (happened (history_at m w v by.leads).client)
        → (change : Change) → MayChange rules v change → (n place : ℕ)
        → ClosesNode rules v change AtServer (Unexpected (is_leg n) place) → ⊥)) }
    ensures cookie { InNewWorlds K (λ m w ours. AtEachMoment m w (λ v by.
        list_all of_line by.leads.changes ≡ true
        → AreDistinct (happened (history_at m w v by.leads).client)
        → (change : Change) → MayChange rules v change → (n : ℕ)
        (expected got : Cookie)
        → ClosesNode rules v change AtServer (CookieMismatch (is_leg n) expected got) → ⊥)) }
{
    no_node_refuses_what_it_expects::<K>();
    is_legs_of_lines_are_connected::<K>();
    a_world_of_roles_is_at_a_moment::<K>();
    a_server_expects_its_in_proxies();
    no_ping_goes_first_to_a_server();
}

/// And none closes an out proxy with these causes for what the server put, where no OUT leg of the
/// client came up under the cookie of zeros, which a server takes for none (MS-RPCH 3.2.4, 3.2.5;
/// successors are this profile's).
pub fn no_out_proxy_refuses_its_server<K>()
    ensures unexpected { InNewWorlds K (λ m w ours. AtEachMoment m w (λ v by.
        HaveCookies (happened (history_at m w v by.leads).client)
        → (change : Change) → MayChange rules v change → (k n place : ℕ)
        → ClosesNode rules v change (Out k) (Unexpected (os_leg n) place) → ⊥)) }
    ensures cookie { InNewWorlds K (λ m w ours. AtEachMoment m w (λ v by.
        HaveCookies (happened (history_at m w v by.leads).client)
        → (change : Change) → MayChange rules v change → (k n : ℕ)
        (expected got : Cookie)
        → ClosesNode rules v change (Out k) (CookieMismatch (os_leg n) expected got) → ⊥)) }
{
    no_node_refuses_what_it_expects::<K>();
    a_world_of_roles_is_at_a_moment::<K>();
    an_out_proxy_expects_its_server();
}

/// In each world of new roles whose numbers are in their ranges, and of whose server the port is
/// one, at every moment that changes of lines and half steps reach: no further change closes an out
/// proxy with `Unexpected` or `CookieMismatch` for what the client put (MS-RPCH 3.2.4; successors
/// are this profile's).
pub fn no_out_proxy_refuses_its_client<K>()
    ensures unexpected { InNewWorlds K (λ m w ours. IsPort ours.config.port
        → AtEachMoment m w (λ v by.
        (change : Change) → MayChange rules v change → (k n place : ℕ)
        → ClosesNode rules v change (Out k) (Unexpected (co n) place) → ⊥)) }
    ensures cookie { InNewWorlds K (λ m w ours. IsPort ours.config.port
        → AtEachMoment m w (λ v by.
        (change : Change) → MayChange rules v change → (k n : ℕ)
        (expected got : Cookie)
        → ClosesNode rules v change (Out k) (CookieMismatch (co n) expected got) → ⊥)) }
{
    no_node_refuses_what_it_expects::<K>();
    an_out_proxy_of_a_world_expects_its_client::<K>();
}
