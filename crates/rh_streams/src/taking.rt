//! The taker of an end: takes PDUs, and writes them to the output.

ghost use Rattle.std.specs.Prelude.{◌≡◌, ◌≢◌, ◌≤◌, [], IfErr, MatchOption};
ghost use Rattle.std.specs.Arc.{arc_value};
ghost use Rattle.rh_io.specs.Counts.{Rose};
ghost use Rattle.rh_turn.specs.Calls.{Acts};
ghost use Rattle.rh_machines.specs.declared.event.NodeEvent.TheVariants as event;
ghost use Rattle.rh_machines.specs.declared.event.NodeReply.{NodeReply as Reply};
ghost use Rattle.rh_machines.specs.declared.event.NodeReply.TheVariants as reply;
ghost use Rattle.rh_legs.specs.Legs.{Calls};
ghost use Rattle.rh_legs.specs.declared.end.NodeEnd.TheVariants.{WriteFault};
ghost use Rattle.rh_streams.specs.Takers.{IsTakersEnd, Takes, TookInto, taken_at};

use crate::batch::{BATCH_ROOM, Batch};
use rh_actors::Actor;
use rh_io::{Sink, write_whole};
use rh_legs::{Call, NodeEnd};
use rh_line::Take;
use rh_machines::{Block, BlockRoom, Node, NodeEvent, NodeReply, TakeRoom};
use rh_pdu::header::HEADER_LEN;
use std::sync::Wait;

// The most PDUs of a batch, in which the shortest ones have room.
const BATCH_PDUS: usize = BATCH_ROOM / HEADER_LEN;

// What a take was answered, and its block; `None` where the role takes no PDUs.
fn taken_of(told: NodeReply) -> Option<(Take, Block)>
    ensures { MatchOption result (taken_at (event.Take tt) told ≡ [])
        (λ parts. told ≡ reply.Taken parts.0 parts.1) }
{
    match told {
        NodeReply::Taken { answer, block } => Some((answer, block)),
        _ => None,
    }
}

// Takes a PDU into the room, and calls nobody yet. Answers how often takers were called up to then,
// too.
fn take_pdu<M: Node, R: Wait>(
    rt: &R,
    actor: &mut Actor<M>,
    room: BlockRoom,
) -> (Option<(Take, Block)>, u64)
where
    M::State: Drop,
    ensures acts { (answer : Reply) × Acts M.next M.reply (arc_value actor.old.turn).first
        (event.Take tt) answer actor.old.seat actor.new.seat
        × MatchOption result.0 (taken_at (event.Take tt) answer ≡ [])
        (λ parts. answer ≡ reply.Taken parts.0 parts.1) }
    ensures turn { actor.new.turn ≡ actor.old.turn }
{
    let event = NodeEvent::Take(TakeRoom::new(room));
    let (told, heard) = actor.act_quietly(rt, event, Call::Takes);
    (taken_of(told), heard)
}

// Takes PDUs into the batch, as many as are there and fit. The room comes back and, where no further
// PDU was there, how often takers were called up to then; or how taking ends.
fn take_batch<M: Node, R: Wait>(
    rt: &R,
    actor: &mut Actor<M>,
    batch: &mut Batch,
    room: BlockRoom,
) -> Result<(BlockRoom, Option<u64>), NodeEnd>
where
    M::State: Drop,
    ensures took { TookInto M.next M.reply (arc_value actor.old.turn).first
        actor.old.seat actor.new.seat batch.old batch.new }
    ensures over { IfErr result (λ end. end ≢ WriteFault) }
    ensures kind { IfErr result IsTakersEnd }
    ensures turn { actor.new.turn ≡ actor.old.turn }
{
    let mut room = room;
    'takes: for _ in 0..BATCH_PDUS {
        if !batch.has_room() {
            return Ok((room, None));
        }
        let (taken, heard) = take_pdu(rt, actor, room);
        let Some((answer, block)) = taken else {
            return Err(NodeEnd::Ended);
        };
        batch.push(block.bytes());
        room = block.into_room();
        match answer {
            Take::Pdu(_) => {}
            Take::Empty => return Ok((room, Some(heard))),
            Take::Ended => return Err(NodeEnd::Ended),
            Take::Closed(cause) => return Err(NodeEnd::Closed(cause)),
        }
    }
    Ok((room, None))
}

// Waits until takers are called more often than they heard, where there was no PDU. Answers false
// where the node is stopped.
fn awaits_pdus<M: Node, R: Wait>(rt: &R, actor: &Actor<M>, heard: Option<u64>) -> bool
where
    M::State: Drop,
{
    let Some(heard) = heard else {
        return true;
    };
    if actor.bell.is_stopped(rt) {
        return false;
    }
    actor.bell.wait(rt, Call::Takes, heard);
    true
}

/// Writes the PDUs that the machine gives, until no further one comes. Answers why it ended.
///
/// What is there is taken, up to a batch, and then written at once.
pub fn take_all<M: Node, R: Wait, W: Sink>(
    rt: &R,
    actor: &mut Actor<M>,
    output: &mut W,
    room: BlockRoom,
) -> NodeEnd
where
    M::State: Drop,
    ensures taken { (calls : Calls) × Takes M.next M.reply (arc_value actor.old.turn).first
        actor.old.seat actor.new.seat (W.written output.old) (W.written output.new) result calls }
    ensures turn { actor.new.turn ≡ actor.old.turn }
    ensures kind { IsTakersEnd result }
    ensures failed { result ≡ WriteFault → Rose (W.faults output.old) (W.faults output.new) }
    ensures faults { W.faults output.old ≤ W.faults output.new }
{
    let mut room = room;
    let mut batch = Batch::new();
    'batches: for _ in rt.forever() {
        batch.clear();
        let left = take_batch(rt, actor, &mut batch, room);
        actor.bell.ring_owed(rt);
        let Ok(()) = write_whole(output, batch.bytes()) else {
            return NodeEnd::WriteFault;
        };
        match left {
            Ok((back, heard)) => {
                if !awaits_pdus(rt, actor, heard) {
                    return NodeEnd::Ended;
                }
                room = back;
            }
            Err(end) => return end,
        }
    }
    unreachable!()
}
