//! The giver of an end: reads PDUs from the input, and gives them.

ghost use Rattle.std.specs.Prelude.{◌≡◌, ◌≢◌, ◌≤◌, ◌++◌, ◌∷◌, [], ℕ, List, length, IfOk, IfErr, MatchOption};
ghost use Rattle.std.specs.Arc.{arc_value};
ghost use Rattle.rh_io.specs.Bytes.{Moves, Stays};
ghost use Rattle.rh_io.specs.Counts.{Rose};
ghost use Rattle.rh_turn.specs.Calls.{Acts};
ghost use Rattle.rh_machines.specs.declared.event.NodeEvent.TheVariants as event;
ghost use Rattle.rh_machines.specs.declared.event.NodeReply.{NodeReply as Reply};
ghost use Rattle.rh_machines.specs.declared.event.NodeReply.TheVariants as reply;
ghost use Rattle.rh_legs.specs.Legs.{Calls};
ghost use Rattle.rh_legs.specs.declared.end.NodeEnd.TheVariants.{ReadFault};
ghost use Rattle.rh_streams.specs.Givers.{GaveOf, Gives, GivesOn, IsGiversEnd, given_at};

use rh_actors::Actor;
use rh_legs::{Call, NodeEnd};
use rh_line::GiveFault;
use rh_machines::{Block, BlockRoom, Node, NodeEvent, NodeReply, PieceRoom};
use rh_net::Ready;
use rh_pdu::{Feed, Framer, check};
use std::sync::Wait;

/// How long a giver waits for input before it asks whether its node takes PDUs any more, in
/// milliseconds.
const LOOK_AFTER: u32 = 1000;

/// Reads the PDUs of the input, and counts them.
#[derive(Drop)]
struct PduReader {
    framer: Framer,
    // How many were made whole.
    count: u64,
}

impl PduReader {
    // How the node ends where the PDU behind those counted is none.
    fn next_is_bad(&self) -> NodeEnd
        ensures no_fault { result ≢ ReadFault }
        ensures kind { IsGiversEnd result }
    {
        NodeEnd::BadInput(self.count.saturating_add(1))
    }
}

// How a give was answered, and its block; `None` where the role takes no PDUs in.
fn given_of(told: NodeReply) -> Option<(Result<(), GiveFault>, Block)>
    ensures { MatchOption result ((pdu : List ℕ) → given_at (event.Give pdu) told ≡ [])
        (λ parts. told ≡ reply.Given parts.0 parts.1) }
{
    match told {
        NodeReply::Given { given, block } => Some((given, block)),
        _ => None,
    }
}

// Gives a PDU once, and calls nobody yet. Answers how often givers were called up to then, too.
fn give_once<M: Node, R: Wait>(
    rt: &R,
    actor: &mut Actor<M>,
    pdu: &[u8],
    room: BlockRoom,
) -> (Option<(Result<(), GiveFault>, Block)>, u64)
where
    M::State: Drop,
    requires fits { length pdu.now ≤ 8192 }
    ensures acts { (answer : Reply) × Acts M.next M.reply (arc_value actor.old.turn).first
        (event.Give pdu.now) answer actor.old.seat actor.new.seat
        × MatchOption result.0 ((pdu : List ℕ) → given_at (event.Give pdu) answer ≡ [])
        (λ parts. answer ≡ reply.Given parts.0 parts.1) }
    ensures turn { actor.new.turn ≡ actor.old.turn }
{
    let event = NodeEvent::Give(Block::of(pdu, room));
    let (told, heard) = actor.act_quietly(rt, event, Call::Gives);
    (given_of(told), heard)
}

// Gives a PDU, again while the queue is full. The room comes back, or how giving ends.
fn give_pdu<M: Node, R: Wait>(
    rt: &R,
    actor: &mut Actor<M>,
    count: u64,
    pdu: &[u8],
    room: BlockRoom,
) -> Result<BlockRoom, NodeEnd>
where
    M::State: Drop,
    requires fits { length pdu.now ≤ 8192 }
    ensures given { IfOk result (λ _. GivesOn M.next M.reply (arc_value actor.old.turn).first
        actor.old.seat actor.new.seat (pdu.now ∷ [])) }
    ensures refused { IfErr result (λ end. GivesOn M.next M.reply (arc_value actor.old.turn).first
        actor.old.seat actor.new.seat [] × (end ≢ ReadFault)) }
    ensures kind { IfErr result IsGiversEnd }
    ensures turn { actor.new.turn ≡ actor.old.turn }
{
    let mut room = room;
    'gives: for _ in rt.forever() {
        let (given, heard) = give_once(rt, actor, pdu, room);
        let Some((given, block)) = given else {
            return Err(NodeEnd::Ended);
        };
        room = block.into_room();
        match given {
            Ok(()) => return Ok(room),
            Err(GiveFault::BadPdu(_)) => return Err(NodeEnd::BadInput(count)),
            Err(GiveFault::Closing | GiveFault::Closed(_)) => return Err(NodeEnd::Ended),
            Err(GiveFault::Full { .. }) => {
                actor.bell.ring_owed(rt);
                if actor.bell.is_stopped(rt) {
                    return Err(NodeEnd::Ended);
                }
                actor.bell.wait(rt, Call::Gives, heard);
            }
        }
    }
    unreachable!()
}

// Gives the PDUs that a piece makes whole. The room comes back, or how giving ends.
fn give_piece<M: Node, R: Wait>(
    rt: &R,
    actor: &mut Actor<M>,
    reader: &mut PduReader,
    piece: &[u8],
    room: BlockRoom,
) -> Result<BlockRoom, NodeEnd>
where
    M::State: Drop,
    ensures gave { IfOk result (λ _. GaveOf M.next M.reply (arc_value actor.old.turn).first
        actor.old.seat actor.new.seat
        (reader.old.framer.rest ++ piece.now) reader.new.framer.rest) }
    ensures stopped { IfErr result (λ end. (rest : List ℕ)
        × GaveOf M.next M.reply (arc_value actor.old.turn).first
        actor.old.seat actor.new.seat (reader.old.framer.rest ++ piece.now) rest
        × (end ≢ ReadFault)) }
    ensures kind { IfErr result IsGiversEnd }
    ensures turn { actor.new.turn ≡ actor.old.turn }
{
    let mut rest = piece;
    let mut room = room;
    'frames: while !rest.is_empty() {
        match reader.framer.feed(rest) {
            Feed::Need => return Ok(room),
            Feed::Fault { .. } => return Err(reader.next_is_bad()),
            Feed::Frame { used, .. } => {
                reader.count = reader.count.saturating_add(1);
                let pdu = reader.framer.frame();
                let Ok(()) = check(pdu) else {
                    return Err(NodeEnd::BadInput(reader.count));
                };
                match give_pdu(rt, actor, reader.count, pdu, room) {
                    Ok(back) => room = back,
                    Err(end) => return Err(end),
                }
                let (_, behind) = rest.split_at(used);
                rest = behind;
            }
        }
    }
    Ok(room)
}

// Waits until the next read of the input won't wait. Answers false where the node takes no PDU any
// more.
fn awaits_input<M: Node, R: Wait, S: Ready>(rt: &R, actor: &mut Actor<M>, input: &mut S) -> bool
where
    M::State: Drop,
    ensures asked { GivesOn M.next M.reply (arc_value actor.old.turn).first
        actor.old.seat actor.new.seat [] }
    ensures bytes { Stays (S.left input.old) (S.left input.new)
        (S.taken input.old) (S.taken input.new) }
    ensures faults { S.faults input.new ≡ S.faults input.old }
    ensures turn { actor.new.turn ≡ actor.old.turn }
{
    'looks: for _ in rt.forever() {
        if input.ready(LOOK_AFTER) {
            return true;
        }
        if !actor.is_live(rt, Call::Gives) {
            return false;
        }
    }
    unreachable!()
}

/// The rooms of a giver: for what it reads, and for the PDU that it gives.
#[derive(Drop)]
pub struct GivingRooms {
    /// For what is read.
    pub read: PieceRoom,
    /// For the PDU that is given.
    pub give: BlockRoom,
}

/// Gives the PDUs of the input, the first one first, and at its end tells the machine that no
/// further one comes. Answers why it ended.
pub fn give_all<M: Node, R: Wait, S: Ready>(
    rt: &R,
    actor: &mut Actor<M>,
    input: &mut S,
    rooms: GivingRooms,
) -> NodeEnd
where
    M::State: Drop,
    ensures gave { (calls : Calls) × (came : List ℕ)
        × Moves (S.left input.old) (S.left input.new) (S.taken input.old) (S.taken input.new) came
        × Gives M.next M.reply (arc_value actor.old.turn).first
        actor.old.seat actor.new.seat came calls }
    ensures turn { actor.new.turn ≡ actor.old.turn }
    ensures kind { IsGiversEnd result }
    ensures failed { result ≡ ReadFault → Rose (S.faults input.old) (S.faults input.new) }
    ensures faults { S.faults input.old ≤ S.faults input.new }
{
    let GivingRooms { mut read, mut give } = rooms;
    let mut reader = PduReader {
        framer: Framer::new(),
        count: 0,
    };
    'reads: for _ in rt.forever() {
        if !awaits_input(rt, actor, input) {
            return NodeEnd::Ended;
        }
        let Ok(count) = input.read(&mut *read) else {
            return NodeEnd::ReadFault;
        };
        if count == 0 {
            if reader.framer.held() != 0 {
                return reader.next_is_bad();
            }
            actor.act(rt, NodeEvent::Close, Call::Gives);
            return NodeEnd::Ended;
        }
        let given = give_piece(rt, actor, &mut reader, &read[..count], give);
        actor.bell.ring_owed(rt);
        match given {
            Ok(room) => give = room,
            Err(end) => return end,
        }
    }
    unreachable!()
}
