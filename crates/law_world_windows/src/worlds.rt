//! The hops of a world of roles. These functions do nothing: their contracts are the laws.

ghost use Rattle.std.specs.Prelude.{ℕ};
ghost use Rattle.rh_line.specs.declared.cause.Cause.TheVariants.{OutOfRange, WindowExceeded};
ghost use Rattle.rh_record.specs.declared.answer.Who.TheVariants.{In, Out, Server as AtServer};
ghost use Rattle.law_node_history.specs.Changes.{Change, MayChange};
ghost use Rattle.law_node_history.specs.Closes.{ClosesNode};
ghost use Rattle.law_node_traces.specs.Traced.Ours.{rules};
ghost use Rattle.law_world_order.specs.Premises.{AtEachMoment, InNewWorlds};
ghost use Rattle.law_world_windows.specs.Hops.{is_leg, os_leg};

use crate::known::{hops_keep_their_laws, worlds_keep_their_laws};

/// In each world of new roles whose numbers are in their ranges, at every moment that changes of
/// lines and half steps reach: no further change closes a node for the window of a hop that lies
/// on one leg. No server closes with `WindowExceeded` for what an in proxy sent, nor an out proxy
/// for what the server sent; and no in proxy and no server closes with `OutOfRange` for what the
/// other end of such a hop acknowledged (MS-RPCH 3.2).
pub fn no_hop_on_one_leg_closes_a_node<K>()
    ensures server_window { InNewWorlds K (λ m w ours. AtEachMoment m w (λ v by.
        (change : Change) → MayChange rules v change → (n reached edge : ℕ)
        → ClosesNode rules v change AtServer (WindowExceeded (is_leg n) reached edge) → ⊥)) }
    ensures server_range { InNewWorlds K (λ m w ours. AtEachMoment m w (λ v by.
        (change : Change) → MayChange rules v change → (n command value : ℕ)
        → ClosesNode rules v change AtServer (OutOfRange (os_leg n) command value) → ⊥)) }
    ensures in_range { InNewWorlds K (λ m w ours. AtEachMoment m w (λ v by.
        (change : Change) → MayChange rules v change → (k n command value : ℕ)
        → ClosesNode rules v change (In k) (OutOfRange (is_leg n) command value) → ⊥)) }
    ensures out_window { InNewWorlds K (λ m w ours. AtEachMoment m w (λ v by.
        (change : Change) → MayChange rules v change → (k n reached edge : ℕ)
        → ClosesNode rules v change (Out k) (WindowExceeded (os_leg n) reached edge) → ⊥)) }
{
    worlds_keep_their_laws::<K>();
    hops_keep_their_laws();
}
