//! The slots of a node. Each has two jobs, which read and write one leg after the other.

ghost use Rattle.std.specs.Prelude.{◌≡◌, ◌⊎◌, ◌≤◌, ℕ, List, length, vec_len, IfOk};
ghost use Rattle.std.specs.Arc.{arc_value};
ghost use Rattle.rh_machines.specs.HandingBack.{IsFed};
ghost use Rattle.rh_slots.specs.Slots.{FeedsFirst, ReadsLeg, ReadsOne, Serves, WritesLeg, WritesOne};

use crate::first::First;
use crate::hand_over::HandOver;
use crate::serving::Serving;
use rh_actors::Actor;
use rh_io::NoMemory;
use rh_legs::{Call, Gate, LegEnd, NodeEnd, Pen, read_leg, write_leg};
use rh_line::{Leg, LegKind};
use rh_machines::{Node, NodeEvent, NodeReply, Piece, PieceRoom, Role};
use rh_net::{ShutSink, ShutSource};
use std::alloc::Global;
use std::sync::{Arc, Wait};

/// A leg that is to be read: the bytes that its keeper read first, and where the rest comes from.
#[derive(Drop)]
pub struct ToRead<I: Drop> {
    pub leg: Leg,
    pub first: First,
    pub source: I,
}

/// A leg that is to be written.
#[derive(Drop)]
pub struct ToWrite<O: Drop> {
    pub leg: Leg,
    pub sink: O,
}

/// A leg that was served: its stream, which is shut, and why it was left.
#[derive(Drop)]
pub struct Served<T: Drop> {
    pub leg: Leg,
    pub stream: T,
    pub end: LegEnd,
}

/// A slot of a node, for legs of one kind. It has one leg at a time.
#[derive(Drop)]
pub struct Slot<I: Drop, O: Drop> {
    pub kind: LegKind,
    pub reads: Arc<HandOver<ToRead<I>>, Global>,
    pub writes: Arc<HandOver<ToWrite<O>>, Global>,
}

impl<I: Drop, O: Drop> Slot<I, O> {
    /// A free slot. Fails where there is no memory.
    pub fn new(alloc: Global, kind: LegKind) -> Result<Slot<I, O>, NoMemory> {
        Ok(Slot {
            kind,
            reads: Arc::new(alloc, HandOver::new())?,
            writes: Arc::new(alloc, HandOver::new())?,
        })
    }

    /// The same slot, for the keeper. Fails where there is no memory.
    pub fn share(&self) -> Result<Slot<I, O>, NoMemory> {
        Ok(Slot {
            kind: self.kind,
            reads: Arc::try_clone(&self.reads)?,
            writes: Arc::try_clone(&self.writes)?,
        })
    }

    /// Hands a leg to both jobs, once the slot is free.
    pub fn hand<R: Wait>(&self, rt: &R, read: ToRead<I>, write: ToWrite<O>) {
        self.writes.put(rt, write);
        self.reads.put(rt, read);
    }

    /// Tells both jobs that no further leg comes.
    pub fn end<R: Wait>(&self, rt: &R) {
        self.reads.end(rt);
        self.writes.end(rt);
    }
}

// How many slots a role has of each of its two kinds of leg: as many as it may have legs of the
// kind at one time.
fn slots_of_kind(role: Role) -> u32
    ensures { (1 ≤ result) × (result ≤ 4) }
{
    match role {
        Role::Client => 2,
        Role::InProxy | Role::OutProxy => 1,
        Role::Server => 4,
    }
}

// The two kinds of leg of a role.
fn kinds(role: Role) -> (LegKind, LegKind) {
    match role {
        Role::Client => (LegKind::ClientOut, LegKind::ClientIn),
        Role::InProxy => (LegKind::ClientIn, LegKind::InServer),
        Role::OutProxy => (LegKind::ClientOut, LegKind::OutServer),
        Role::Server => (LegKind::OutServer, LegKind::InServer),
    }
}

/// The slots of a role, two at least and eight at most. Fails where there is no memory.
pub fn slots_of<I: Drop, O: Drop>(alloc: Global, role: Role) -> Result<Vec<Slot<I, O>>, NoMemory>
    ensures { IfOk result (λ slots. (2 ≤ vec_len slots) × (vec_len slots ≤ 8)) }
{
    let (one, other) = kinds(role);
    let mut slots = Vec::new(alloc);
    for pair in 0..slots_of_kind(role) {
        slots.push(Slot::new(alloc, one)?)?;
        slots.push(Slot::new(alloc, other)?)?;
    }
    Ok(slots)
}

// Feeds what the keeper read, as one piece. The room comes back.
fn feed_first<M: Node, R: Wait>(
    rt: &R,
    actor: &mut Actor<M>,
    leg: Leg,
    first: &First,
    room: PieceRoom,
) -> PieceRoom
where
    M::State: Drop,
    ensures begun { FeedsFirst M.next M.reply (arc_value actor.old.turn).first leg first.now
        actor.old.seat actor.new.seat }
    ensures turn { actor.new.turn ≡ actor.old.turn }
{
    let bytes = first.bytes();
    if bytes.is_empty() {
        return room;
    }
    let mut room = room;
    let (front, _) = room.split_at_mut(bytes.len());
    front.copy_from_slice(bytes);
    let piece = Piece::new(bytes.len(), room);
    let (told, _) = actor.act(rt, NodeEvent::Bytes { leg, piece }, Call::Draws(leg.kind));
    room_of(told)
}

// The room of the piece that a reply brings back.
fn room_of(told: NodeReply) -> PieceRoom
    requires { (piece : List ℕ) × IsFed piece told }
{
    let NodeReply::Fed { piece, .. } = told else {
        unreachable!()
    };
    piece.into_room()
}

// Reads one leg to its end, and shuts its source.
fn read_one<M: Node, R: Wait, I: ShutSource + Drop, G: Gate>(
    rt: &R,
    actor: &mut Actor<M>,
    read: ToRead<I>,
    room: PieceRoom,
    gate: &G,
) -> (Served<I>, PieceRoom)
where
    M::State: Drop,
    ensures read { ReadsOne M.next M.reply (arc_value actor.old.turn).first
        I.taken I.faults I.ends actor.old.seat actor.new.seat
        read result.0.leg result.0.stream result.0.end }
    ensures turn { actor.new.turn ≡ actor.old.turn }
{
    let ToRead {
        leg,
        first,
        mut source,
    } = read;
    let room = feed_first(rt, actor, leg, &first, room);
    let (end, room) = read_leg(
        rt,
        &actor.turn,
        &mut actor.seat,
        leg,
        &mut source,
        room,
        gate,
        &actor.bell,
    );
    source.shut();
    let served = Served {
        leg,
        stream: source,
        end,
    };
    (served, room)
}

// Writes one leg until it is of no use any more, and shuts its sink.
fn write_one<M: Node, R: Wait, O: ShutSink + Drop, G: Gate>(
    rt: &R,
    actor: &mut Actor<M>,
    write: ToWrite<O>,
    room: PieceRoom,
    gate: &G,
) -> (Served<O>, PieceRoom)
where
    M::State: Drop,
    ensures written { WritesOne M.next M.reply (arc_value actor.old.turn).first
        O.written O.faults actor.old.seat actor.new.seat
        write result.0.leg result.0.stream result.0.end }
    ensures turn { actor.new.turn ≡ actor.old.turn }
{
    let ToWrite { leg, mut sink } = write;
    let (end, room) = write_leg(
        rt,
        &actor.turn,
        &mut actor.seat,
        Pen::of(leg),
        &mut sink,
        room,
        gate,
        &actor.bell,
    );
    sink.shut();
    let served = Served {
        leg,
        stream: sink,
        end,
    };
    (served, room)
}

/// Reads one leg after the other until none comes, or there is no memory to keep a further one.
/// Answers the legs, in order, and which of the two it was.
pub fn read_slot<M: Node, R: Wait, I: ShutSource + Drop, G: Gate + Drop>(
    rt: &R,
    actor: &mut Actor<M>,
    serving: Serving<ToRead<I>, I, G>,
) -> (Vec<Served<I>>, NodeEnd)
where
    M::State: Drop,
    ensures read { Serves (ReadsLeg M.next M.reply (arc_value actor.old.turn).first
        I.taken I.faults I.ends) actor.old.seat actor.new.seat result.0.items }
    ensures end { (result.1 ≡ NodeEnd.Ended) ⊎ (result.1 ≡ NodeEnd.NoMemory) }
    ensures turn { actor.new.turn ≡ actor.old.turn }
{
    let Serving {
        legs,
        gate,
        mut room,
        mut kept,
    } = serving;
    'legs: for _ in rt.forever() {
        let Ok(()) = kept.try_reserve(1) else {
            return (kept, NodeEnd::NoMemory);
        };
        let Some(read) = legs.take(rt) else {
            return (kept, NodeEnd::Ended);
        };
        let (served, back) = read_one::<M, R, I, G>(rt, actor, read, room, &gate);
        room = back;
        let Ok(()) = kept.push(served) else {
            unreachable!()
        };
    }
    unreachable!()
}

/// Writes one leg after the other until none comes, or there is no memory to keep a further one.
/// Answers the legs, in order, and which of the two it was.
pub fn write_slot<M: Node, R: Wait, O: ShutSink + Drop, G: Gate + Drop>(
    rt: &R,
    actor: &mut Actor<M>,
    serving: Serving<ToWrite<O>, O, G>,
) -> (Vec<Served<O>>, NodeEnd)
where
    M::State: Drop,
    ensures written { Serves (WritesLeg M.next M.reply (arc_value actor.old.turn).first
        O.written O.faults) actor.old.seat actor.new.seat result.0.items }
    ensures end { (result.1 ≡ NodeEnd.Ended) ⊎ (result.1 ≡ NodeEnd.NoMemory) }
    ensures turn { actor.new.turn ≡ actor.old.turn }
{
    let Serving {
        legs,
        gate,
        mut room,
        mut kept,
    } = serving;
    'legs: for _ in rt.forever() {
        let Ok(()) = kept.try_reserve(1) else {
            return (kept, NodeEnd::NoMemory);
        };
        let Some(write) = legs.take(rt) else {
            return (kept, NodeEnd::Ended);
        };
        let (served, back) = write_one::<M, R, O, G>(rt, actor, write, room, &gate);
        room = back;
        let Ok(()) = kept.push(served) else {
            unreachable!()
        };
    }
    unreachable!()
}
