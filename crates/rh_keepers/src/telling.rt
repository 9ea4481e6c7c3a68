//! What a keeper asks the machine of its node, and what it tells it.

ghost use Rattle.std.specs.Prelude.{◌≡◌, true, take, IfSome};
ghost use Rattle.rh_machines.specs.declared.event.NodeEvent.TheVariants as event;
ghost use Rattle.rh_machines.specs.declared.event.NodeReply.TheVariants as reply;
ghost use Rattle.rh_keepers.specs.Keepers.{ActsOn, AsksLive, IsWanted, KeptOn, TellsUp, no_causes};

use rh_actors::Actor;
use rh_legs::Call;
use rh_line::Leg;
use rh_machines::{Node, NodeEvent, NodeReply};
use rh_net::Address;
use rh_rts::Cookie;
use std::sync::Wait;

/// How often the keeper was called.
pub(crate) fn heard<M: Node, R: Wait>(rt: &R, actor: &mut Actor<M>) -> u64
where
    M::State: Drop,
    ensures { KeptOn M.next M.reply no_causes actor.old.turn actor.new.turn
        actor.old.seat actor.new.seat }
{
    actor.act(rt, NodeEvent::State, Call::Keeps).1
}

/// Whether the node may still connect legs.
pub(crate) fn is_live<M: Node, R: Wait>(rt: &R, actor: &mut Actor<M>) -> bool
where
    M::State: Drop,
    ensures { AsksLive M.next M.reply result actor.old.turn actor.new.turn
        actor.old.seat actor.new.seat }
{
    actor.is_live(rt, Call::Keeps)
}

/// Whether the leg is to be connected.
pub(crate) fn wants<M: Node, R: Wait>(rt: &R, actor: &mut Actor<M>, leg: Leg) -> bool
where
    M::State: Drop,
    ensures asked { KeptOn M.next M.reply no_causes actor.old.turn actor.new.turn
        actor.old.seat actor.new.seat }
    ensures wanted { result ≡ true → IsWanted M.reply leg }
{
    let (answer, _) = actor.act(rt, NodeEvent::Wants(leg), Call::Keeps);
    matches!(answer, NodeReply::Told(true))
}

/// The server that a proxy's client named.
pub(crate) fn target<M: Node, R: Wait>(rt: &R, actor: &mut Actor<M>) -> Option<Address>
where
    M::State: Drop,
    ensures asked { KeptOn M.next M.reply no_causes actor.old.turn actor.new.turn
        actor.old.seat actor.new.seat }
    ensures named { IfSome result (λ to. (state : M.State) × (M.reply state event.Target
        ≡ reply.Target (Some (take to.len to.host, to.port)))) }
{
    server_of(actor.act(rt, NodeEvent::Target, Call::Keeps).0)
}

// The address of the server that a reply names.
fn server_of(told: NodeReply) -> Option<Address>
    ensures { IfSome result (λ to. told ≡ reply.Target (Some (take to.len to.host, to.port))) }
{
    let NodeReply::Target(target) = told else {
        return None;
    };
    let server = target?;
    let host = server.host;
    Address::new(host.text(), server.port)
}

/// Tells the moment, in milliseconds.
pub(crate) fn tell_moment<M: Node, R: Wait>(rt: &R, actor: &mut Actor<M>, now: u64)
where
    M::State: Drop,
    ensures { ActsOn M.next M.reply (event.Tick now) actor.old.turn actor.new.turn
        actor.old.seat actor.new.seat }
{
    actor.act(rt, NodeEvent::Tick(now), Call::Keeps);
}

/// Tells the moment, and that a leg is up. Answers whether it may be up.
pub(crate) fn tell_up<M: Node, R: Wait>(
    rt: &R,
    actor: &mut Actor<M>,
    now: u64,
    leg: Leg,
    cookie: Cookie,
) -> bool
where
    M::State: Drop,
    ensures { TellsUp M.next M.reply now leg cookie result actor.old.turn actor.new.turn
        actor.old.seat actor.new.seat }
{
    actor.act(rt, NodeEvent::Tick(now), Call::Keeps);
    let (answer, _) = actor.act(rt, NodeEvent::Up { leg, cookie }, Call::Keeps);
    matches!(answer, NodeReply::Told(true))
}

/// Tells that a leg is broken.
pub(crate) fn tell_broken<M: Node, R: Wait>(rt: &R, actor: &mut Actor<M>, leg: Leg)
where
    M::State: Drop,
    ensures { ActsOn M.next M.reply (event.Broken leg) actor.old.turn actor.new.turn
        actor.old.seat actor.new.seat }
{
    actor.act(rt, NodeEvent::Broken(leg), Call::Keeps);
}
