//! What comes at the client of a world of roles. These functions do nothing: their contracts are
//! the laws.

ghost use Rattle.std.specs.Prelude.{ℕ};
ghost use Rattle.rh_rts.specs.declared.command.Cookie.{Cookie};
ghost use Rattle.rh_line.specs.declared.cause.Cause.TheVariants.{CookieMismatch, Unexpected};
ghost use Rattle.rh_line.specs.declared.leg.Leg.{Leg};
ghost use Rattle.rh_record.specs.declared.answer.Who.TheVariants.{Client as AtClient};
ghost use Rattle.rh_client.specs.State.{co};
ghost use Rattle.law_node_history.specs.Carried.{happened};
ghost use Rattle.law_node_history.specs.Changes.{Change, MayChange};
ghost use Rattle.law_node_history.specs.Closes.{ClosesNode};
ghost use Rattle.law_node_traces.specs.Traced.Ours.{rules};
ghost use Rattle.law_node_traces.specs.Traced.Recordings.{history_at};
ghost use Rattle.law_world_order.specs.Premises.{AreDistinct, AtEachMoment, InNewWorlds};
ghost use Rattle.law_world_order.specs.FirstTexts.{IsPort};

use crate::expecting::no_node_refuses_what_it_expects;
use law_peers_expects::a_client_expects_what_comes;
use law_role_client_rows::what_a_client_refuses;
use law_world_order::a_world_of_roles_is_at_a_moment;
use law_world_windows::{nodes_keep_their_laws, what_was_put_reads_back, worlds_keep_their_laws};

/// In each world of new roles whose numbers are in their ranges, at every moment that changes of
/// lines and half steps reach: no further change closes the client with `CookieMismatch`, on any
/// leg. No row of its role refuses a packet or an RPC PDU for its cookie (MS-RPCH 2.2.4).
pub fn a_client_refuses_no_cookie<K>()
    ensures { InNewWorlds K (λ m w ours. AtEachMoment m w (λ v by.
        (change : Change) → MayChange rules v change → (leg : Leg) (expected got : Cookie)
        → ClosesNode rules v change AtClient (CookieMismatch leg expected got) → ⊥)) }
{
    what_a_client_refuses();
    worlds_keep_their_laws::<K>();
    what_was_put_reads_back();
    nodes_keep_their_laws();
}

/// And where the port of its server is one, and no two legs of the client of one kind came up under
/// one cookie by that moment: none closes it with `Unexpected` for what an out proxy put (MS-RPCH
/// 3.2.2.5; successors are this profile's).
pub fn no_client_refuses_what_comes<K>()
    ensures unexpected { InNewWorlds K (λ m w ours. IsPort ours.config.port
        → AtEachMoment m w (λ v by.
        AreDistinct (happened (history_at m w v by.leads).client)
        → (change : Change) → MayChange rules v change → (n place : ℕ)
        → ClosesNode rules v change AtClient (Unexpected (co n) place) → ⊥)) }
    ensures cookie { InNewWorlds K (λ m w ours. IsPort ours.config.port
        → AtEachMoment m w (λ v by.
        AreDistinct (happened (history_at m w v by.leads).client)
        → (change : Change) → MayChange rules v change → (n : ℕ) (expected got : Cookie)
        → ClosesNode rules v change AtClient (CookieMismatch (co n) expected got) → ⊥)) }
{
    a_client_refuses_no_cookie::<K>();
    no_node_refuses_what_it_expects::<K>();
    a_client_expects_what_comes();
    a_world_of_roles_is_at_a_moment::<K>();
}
