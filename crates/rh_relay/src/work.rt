//! The jobs of a node.

ghost use Rattle.std.specs.Prelude.{◌≡◌};
ghost use Rattle.std.specs.Arc.{arc_value};
ghost use Rattle.rh_slots.specs.Slots.{ReadsLeg, WritesLeg};
ghost use Rattle.rh_keepers.specs.Faults.{CookiesFail, NetFails};
ghost use Rattle.rh_keepers.specs.Keepers.{IsKeepersEnd, KeptOn, of_role};
ghost use Rattle.rh_relay.specs.Jobs.{HasGiven, HasRead, HasTaken, HasWritten, IsSlotsEnd};

use crate::answer::{Done, Had};
use rh_actors::Actor;
use rh_jobs::Job;
use rh_keepers::Keeper;
use rh_legs::{Gate, NodeEnd};
use rh_machines::{BlockRoom, Node};
use rh_net::{Clock, Cookies, Net, Ready, ShutSink};
use rh_slots::{Serving, ToRead, ToWrite, read_slot, write_slot};
use rh_streams::{GivingRooms, give_all, take_all};
use std::alloc::Global;
use std::sync::Wait;
use std::time;

/// What one job of a node does.
#[derive(Drop)]
pub enum Task<
    M: Node,
    S: Ready + Drop,
    W: ShutSink + Drop,
    N: Net + Drop,
    C: Clock + Drop,
    K: Cookies + Drop,
    G: Gate + Drop,
>
where
    M::State: Drop,
    N::In: Drop,
    N::Out: Drop,
    N::Way: Drop,
{
    /// Keeps the node.
    Keep(Global, Keeper<M, N, C, K>),
    /// Reads the legs of a slot.
    Read(Actor<M>, Serving<ToRead<N::In>, N::In, G>),
    /// Writes the legs of a slot.
    Write(Actor<M>, Serving<ToWrite<N::Out>, N::Out, G>),
    /// Gives the PDUs of the input.
    Give(Actor<M>, S, GivingRooms),
    /// Takes PDUs, and writes them to the output.
    Take(Actor<M>, W, BlockRoom),
}

/// One job of a node.
#[derive(Drop)]
pub struct Work<
    M: Node,
    S: Ready + Drop,
    W: ShutSink + Drop,
    N: Net + Drop,
    C: Clock + Drop,
    K: Cookies + Drop,
    G: Gate + Drop,
    R: Wait + Drop,
>
where
    M::State: Drop,
    N::In: Drop,
    N::Out: Drop,
    N::Way: Drop,
{
    pub(crate) rt: R,
    /// The place of its node.
    pub(crate) node: usize,
    pub(crate) task: Task<M, S, W, N, C, K, G>,
}

impl<
    M: Node + Send,
    S: Ready + Send + Drop,
    W: ShutSink + Send + Drop,
    N: Net + Send + Drop,
    C: Clock + Send + Drop,
    K: Cookies + Send + Drop,
    G: Gate + Send + Sync + Drop,
    R: Wait + time::Clock + Send + Drop,
> Job for Work<M, S, W, N, C, K, G, R>
where
    M::State: Send + Drop,
    N::In: Ready + Send + Drop,
    N::Out: Send + Drop,
    N::Way: Send + Drop,
{
    type Out = Done<M, S, W, N::In, N::Out>;

    ghost use Rattle.std.specs.Prelude.{◌≡◌};
    ghost use Rattle.rh_keepers.specs.Faults.{CookiesFail, NetFails};
    ghost use Rattle.rh_keepers.specs.Keepers.{of_role};
    ghost use Rattle.rh_relay.specs.Jobs.{Answers};

    ghost answers = { λ work done. (done.node ≡ work.node) × Answers M.next M.reply
        (of_role M.ROLE M.reply C.moment N.counts K.answered N.In.faults)
        (NetFails N.counts) (CookiesFail K.faults)
        (record {
          left = S.left;
          taken = S.taken;
          faults = S.faults;
          written = W.written;
          misses = W.faults;
        })
        (record {
          read = N.In.taken;
          faults = N.In.faults;
          ends = N.In.ends;
          sent = N.Out.written;
          misses = N.Out.faults;
        }) work.task done };

    fn run(self) -> Done<M, S, W, N::In, N::Out> {
        let Work { rt, node, task } = self;
        match task {
            Task::Keep(alloc, keeper) => keep::<M, S, W, N, C, K, R>(&rt, node, alloc, keeper),
            Task::Read(actor, serving) => read::<M, S, W, N, G, R>(&rt, node, actor, serving),
            Task::Write(actor, serving) => write::<M, S, W, N, G, R>(&rt, node, actor, serving),
            Task::Give(actor, input, rooms) => {
                give::<M, S, W, N, R>(&rt, node, actor, input, rooms)
            }
            Task::Take(actor, output, room) => {
                take::<M, S, W, N, R>(&rt, node, actor, output, room)
            }
        }
    }
}

// Keeps a node.
fn keep<
    M: Node,
    S: Ready + Drop,
    W: ShutSink + Drop,
    N: Net + Drop,
    C: Clock + Drop,
    K: Cookies + Drop,
    R: Wait + time::Clock,
>(rt: &R, node: usize, alloc: Global, keeper: Keeper<M, N, C, K>) -> Done<M, S, W, N::In, N::Out>
where
    M::State: Drop,
    N::In: Ready + Drop,
    N::Out: Drop,
    N::Way: Drop,
    ensures node { result.node ≡ node }
    ensures kept { KeptOn M.next M.reply
        (of_role M.ROLE M.reply C.moment N.counts K.answered N.In.faults)
        keeper.actor.turn result.actor.turn keeper.actor.seat result.actor.seat }
    ensures end { IsKeepersEnd (NetFails N.counts) (CookiesFail K.faults) result.end }
{
    let mut keeper = keeper;
    let end = keeper.run(alloc, rt);
    let Keeper {
        actor,
        failed,
        unreached,
        ..
    } = keeper;
    Done {
        node,
        actor,
        end,
        had: Had::Kept { failed, unreached },
    }
}

// Reads the legs of a slot.
fn read<M: Node, S: Ready + Drop, W: ShutSink + Drop, N: Net + Drop, G: Gate + Drop, R: Wait>(
    rt: &R,
    node: usize,
    actor: Actor<M>,
    serving: Serving<ToRead<N::In>, N::In, G>,
) -> Done<M, S, W, N::In, N::Out>
where
    M::State: Drop,
    N::In: Drop,
    N::Out: Drop,
    ensures node { result.node ≡ node }
    ensures turn { result.actor.turn ≡ actor.turn }
    ensures read { HasRead (ReadsLeg M.next M.reply (arc_value actor.turn).first
        N.In.taken N.In.faults N.In.ends) actor.seat result.actor.seat result.had }
    ensures end { IsSlotsEnd result.end }
{
    let mut actor = actor;
    let (kept, end) = read_slot::<M, R, N::In, G>(rt, &mut actor, serving);
    actor.stop_at(rt, end);
    Done {
        node,
        actor,
        end,
        had: Had::Read(kept),
    }
}

// Writes the legs of a slot.
fn write<M: Node, S: Ready + Drop, W: ShutSink + Drop, N: Net + Drop, G: Gate + Drop, R: Wait>(
    rt: &R,
    node: usize,
    actor: Actor<M>,
    serving: Serving<ToWrite<N::Out>, N::Out, G>,
) -> Done<M, S, W, N::In, N::Out>
where
    M::State: Drop,
    N::In: Drop,
    N::Out: Drop,
    ensures node { result.node ≡ node }
    ensures turn { result.actor.turn ≡ actor.turn }
    ensures written { HasWritten (WritesLeg M.next M.reply (arc_value actor.turn).first
        N.Out.written N.Out.faults) actor.seat result.actor.seat result.had }
    ensures end { IsSlotsEnd result.end }
{
    let mut actor = actor;
    let (kept, end) = write_slot::<M, R, N::Out, G>(rt, &mut actor, serving);
    actor.stop_at(rt, end);
    Done {
        node,
        actor,
        end,
        had: Had::Wrote(kept),
    }
}

// Gives the PDUs of the input.
fn give<M: Node, S: Ready + Drop, W: ShutSink + Drop, N: Net + Drop, R: Wait>(
    rt: &R,
    node: usize,
    actor: Actor<M>,
    input: S,
    rooms: GivingRooms,
) -> Done<M, S, W, N::In, N::Out>
where
    M::State: Drop,
    N::In: Drop,
    N::Out: Drop,
    ensures node { result.node ≡ node }
    ensures turn { result.actor.turn ≡ actor.turn }
    ensures gave { HasGiven M.next M.reply (arc_value actor.turn).first S.left S.taken S.faults
        input actor.seat result.actor.seat result.end result.had }
{
    let mut actor = actor;
    let mut input = input;
    let end = give_all(rt, &mut actor, &mut input, rooms);
    actor.stop_at(rt, end);
    Done {
        node,
        actor,
        end,
        had: Had::Input(input),
    }
}

// Takes PDUs, and writes them to the output, which is shut then.
fn take<M: Node, S: Ready + Drop, W: ShutSink + Drop, N: Net + Drop, R: Wait>(
    rt: &R,
    node: usize,
    actor: Actor<M>,
    output: W,
    room: BlockRoom,
) -> Done<M, S, W, N::In, N::Out>
where
    M::State: Drop,
    N::In: Drop,
    N::Out: Drop,
    ensures node { result.node ≡ node }
    ensures turn { result.actor.turn ≡ actor.turn }
    ensures took { HasTaken M.next M.reply (arc_value actor.turn).first W.written W.faults
        output actor.seat result.actor.seat result.end result.had }
{
    let mut actor = actor;
    let mut output = output;
    let end = take_all(rt, &mut actor, &mut output, room);
    output.shut();
    if end == NodeEnd::WriteFault {
        actor.stop_at(rt, end);
    }
    Done {
        node,
        actor,
        end,
        had: Had::Output(output),
    }
}
