//! How the jobs of a node are made.

ghost use Rattle.std.specs.Prelude.{◌≡◌, ◌+◌, ◌*◌, ◌≤◌, length, vec_len, OnOk};

use crate::work::{Task, Work};
use rh_actors::Actor;
use rh_io::NoMemory;
use rh_keepers::{Desk, Keeper, Plan, Queue};
use rh_legs::Gate;
use rh_machines::{Node, block_room, piece_room};
use rh_net::{Clock, Cookies, Net, Ready, ShutSink};
use rh_slots::{HandOver, Serving, Slot, slots_of};
use rh_streams::GivingRooms;
use std::alloc::Global;
use std::sync::{Arc, Wait};

/// What the jobs of all nodes share.
#[derive(Drop)]
pub(crate) struct Shared<N: Net + Drop, C: Clock + Drop, K: Cookies + Drop, G: Drop, R: Drop> {
    pub rt: R,
    pub alloc: Global,
    pub desk: Desk<N, C, K>,
    pub queue: Arc<Queue, Global>,
    pub gate: Arc<G, Global>,
}

impl<
    N: Net + Drop,
    C: Clock + Drop,
    K: Cookies + Drop,
    G: Gate + Drop,
    R: Wait + Copy + Drop,
> Shared<N, C, K, G, R>
where
    N::In: Drop,
    N::Out: Drop,
    N::Way: Drop,
{
    fn job<M: Node, S: Ready + Drop, W: ShutSink + Drop>(
        &self,
        node: usize,
        task: Task<M, S, W, N, C, K, G>,
    ) -> Work<M, S, W, N, C, K, G, R>
    where
        M::State: Drop,
    {
        Work {
            rt: self.rt,
            node,
            task,
        }
    }

    // What a job of a slot serves.
    fn serving<T: Drop, L: Drop>(
        &self,
        legs: &Arc<HandOver<T>, Global>,
    ) -> Result<Serving<T, L, G>, NoMemory> {
        Ok(Serving {
            legs: Arc::try_clone(legs)?,
            gate: Arc::try_clone(&self.gate)?,
            room: piece_room(self.alloc)?,
            kept: Vec::new(self.alloc),
        })
    }

    // Adds the two jobs of a slot.
    fn add_slot<M: Node, S: Ready + Drop, W: ShutSink + Drop>(
        &self,
        jobs: &mut Vec<Work<M, S, W, N, C, K, G, R>>,
        node: usize,
        actor: &mut Actor<M>,
        slot: &Slot<N::In, N::Out>,
    ) -> Result<(), NoMemory>
    where
        M::State: Drop,
        requires parts { 3 ≤ actor.old.seat.parts }
        ensures parts { OnOk result (actor.new.seat.parts + 2 ≡ actor.old.seat.parts) }
        ensures jobs { OnOk result (vec_len jobs.new ≡ vec_len jobs.old + 2) }
    {
        let reading = self.serving(&slot.reads)?;
        let reader = actor.split()?;
        jobs.push(self.job(node, Task::Read(reader, reading)))?;
        let writing = self.serving(&slot.writes)?;
        let writer = actor.split()?;
        jobs.push(self.job(node, Task::Write(writer, writing)))?;
        Ok(())
    }

    // Adds the jobs of all slots.
    fn add_slots<M: Node, S: Ready + Drop, W: ShutSink + Drop>(
        &self,
        jobs: &mut Vec<Work<M, S, W, N, C, K, G, R>>,
        node: usize,
        actor: &mut Actor<M>,
        slots: &[Slot<N::In, N::Out>],
    ) -> Result<(), NoMemory>
    where
        M::State: Drop,
        requires parts { length slots.now * 2 + 1 ≤ actor.old.seat.parts }
        ensures parts { OnOk result
            (actor.new.seat.parts + length slots.now * 2 ≡ actor.old.seat.parts) }
        ensures jobs { OnOk result (vec_len jobs.new ≡ vec_len jobs.old + length slots.now * 2) }
    {
        for at in 0..slots.len() {
            self.add_slot(jobs, node, actor, &slots[at])?;
        }
        Ok(())
    }

    // Adds the keeper's job.
    fn add_keeper<M: Node, S: Ready + Drop, W: ShutSink + Drop>(
        &self,
        jobs: &mut Vec<Work<M, S, W, N, C, K, G, R>>,
        node: usize,
        actor: &mut Actor<M>,
        slots: &[Slot<N::In, N::Out>],
        plan: &Plan,
        way: N::Way,
        number: u32,
    ) -> Result<(), NoMemory>
    where
        M::State: Drop,
        requires parts { 2 ≤ actor.old.seat.parts }
        ensures parts { OnOk result (actor.new.seat.parts + 1 ≡ actor.old.seat.parts) }
        ensures jobs { OnOk result (vec_len jobs.new ≡ vec_len jobs.old + 1) }
    {
        let keeper = Keeper {
            actor: actor.split()?,
            desk: self.desk.share()?,
            queue: Arc::try_clone(&self.queue)?,
            ticket: u64::from(number.saturating_sub(1)),
            slots: same_slots(self.alloc, slots)?,
            plan: plan.copy(self.alloc)?,
            way,
            number,
            told: 0,
            failed: None,
            unreached: None,
        };
        jobs.push(self.job(node, Task::Keep(self.alloc, keeper)))?;
        Ok(())
    }

    // Adds the giver and the taker of an end.
    fn add_streams<M: Node, S: Ready + Drop, W: ShutSink + Drop>(
        &self,
        jobs: &mut Vec<Work<M, S, W, N, C, K, G, R>>,
        node: usize,
        actor: &mut Actor<M>,
        streams: (S, W),
    ) -> Result<(), NoMemory>
    where
        M::State: Drop,
        requires parts { 3 ≤ actor.old.seat.parts }
        ensures jobs { OnOk result (vec_len jobs.new ≡ vec_len jobs.old + 2) }
    {
        let (input, output) = streams;
        let rooms = GivingRooms {
            read: piece_room(self.alloc)?,
            give: block_room(self.alloc)?,
        };
        let giver = actor.split()?;
        jobs.push(self.job(node, Task::Give(giver, input, rooms)))?;
        let room = block_room(self.alloc)?;
        let taker = actor.split()?;
        jobs.push(self.job(node, Task::Take(taker, output, room)))?;
        Ok(())
    }

    /// Adds the jobs of a node, an end's with its streams. Answers the actor of who gathers what
    /// they answer. Fails where there is no memory.
    pub(crate) fn add_node<M: Node, S: Ready + Drop, W: ShutSink + Drop>(
        &self,
        jobs: &mut Vec<Work<M, S, W, N, C, K, G, R>>,
        node: usize,
        config: &M::Config,
        plan: &Plan,
        way: N::Way,
        streams: Option<(S, W)>,
    ) -> Result<Actor<M>, NoMemory>
    where
        M::State: Drop,
        requires config { M.can_make config.now }
        ensures jobs { OnOk result (vec_len jobs.old + 5 ≤ vec_len jobs.new) }
    {
        let mut actor = Actor::<M>::new(self.alloc, M::make(self.alloc, config)?)?;
        let slots = slots_of::<N::In, N::Out>(self.alloc, M::ROLE)?;
        self.add_keeper(jobs, node, &mut actor, &slots, plan, way, M::number(config))?;
        self.add_slots(jobs, node, &mut actor, &slots)?;
        if let Some(streams) = streams {
            self.add_streams(jobs, node, &mut actor, streams)?;
        }
        Ok(actor)
    }
}

// The same slots, for a keeper.
fn same_slots<I: Drop, O: Drop>(
    alloc: Global,
    slots: &[Slot<I, O>],
) -> Result<Vec<Slot<I, O>>, NoMemory> {
    let mut same = Vec::new(alloc);
    for slot in slots.iter() {
        same.push(slot.share()?)?;
    }
    Ok(same)
}
