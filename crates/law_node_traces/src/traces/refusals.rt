//! Why a proxy refuses its client. These functions do nothing: their contracts are the laws.

ghost use Rattle.std.specs.Prelude.{◌⊎◌, List, ℕ};
ghost use Rattle.rh_line.specs.declared.leg.Leg.{Leg};
ghost use Rattle.rh_line.specs.declared.leg.LegKind.TheVariants.{InServer};
ghost use Rattle.rh_line.specs.declared.leg.LegKind.TheVariants.{OutServer};
ghost use Rattle.rh_shell.specs.declared.rooms.Rooms.{Rooms};
ghost use Rattle.rh_shell.specs.Shells.{begun};
ghost use Rattle.rh_inproxy.specs.State.{InProxy};
ghost use Rattle.rh_outproxy.specs.OutProxy.{OutProxy};
ghost use Rattle.rh_client.specs.declared.state.ClientRole.{ClientRole};
ghost use Rattle.rh_server.specs.States.{Server};
ghost use Rattle.rh_company.specs.Company.{Company};
ghost use Rattle.rh_nodes.specs.Opening.{Makers};
ghost use Rattle.rh_nodes.specs.Settling.{leg_at};
ghost use Rattle.law_moves.specs.Moving.{Event};
ghost use Rattle.law_node_traces.specs.Traced.Ours.{AreOurs, rules};
ghost use Rattle.law_node_traces.specs.Traced.Refusals.{DrawsGoing, DrawsRefusal, DrawsRightly};

use law_node_causes::{
    a_node_closes_once, a_node_refuses_for_a_reason, a_proxy_refuses_for_a_reason,
    causes_come_from_their_events,
};
use rh_inproxy::InProxyRole;
use rh_outproxy::OutProxyRole;
use rh_shell::Role;

/// What a node draws on a leg it draws while it goes on, and behind that at most the head by which
/// it refuses a request there: a front of one refusal, that of status 503 only where the event that
/// made it refuse told it that a leg broke.
pub fn what_a_node_draws_goes_on_or_refuses<R: Role>()
    ensures { (role : R) (rooms : Rooms) (events : List Event) (leg : Leg)
        → (let first = begun role rooms in
        DrawsGoing R.rules first leg events ⊎ DrawsRefusal R.rules first leg events) }
{
    causes_come_from_their_events::<R>();
    a_node_closes_once::<R>();
    a_node_refuses_for_a_reason::<R>();
}

/// So it is of each proxy: it draws the head of status 503 only where it was told that its leg to
/// the server, which has its number, broke.
pub fn a_proxy_draws_503_where_its_server_is_lost<K>()
    ensures in_proxy { (m : Makers K InProxy OutProxy)
        (first : Company ClientRole Server InProxy OutProxy) (cast : K) → AreOurs m first cast
        → (n : ℕ) (leg : Leg) (events : List Event)
        → DrawsRightly rules.in_proxy (m.in_proxy cast n) (leg_at InServer n) leg events }
    ensures out_proxy { (m : Makers K InProxy OutProxy)
        (first : Company ClientRole Server InProxy OutProxy) (cast : K) → AreOurs m first cast
        → (n : ℕ) (leg : Leg) (events : List Event)
        → DrawsRightly rules.out_proxy (m.out_proxy cast n) (leg_at OutServer n) leg events }
{
    a_proxy_refuses_for_a_reason();
    what_a_node_draws_goes_on_or_refuses::<InProxyRole>();
    what_a_node_draws_goes_on_or_refuses::<OutProxyRole>();
}
