//! Writing a leg: what the machine puts there is drawn and written.

ghost use Rattle.std.specs.Prelude.{◌≡◌, ◌≢◌, ◌≤◌};
ghost use Rattle.rh_io.specs.Counts.{Rose};
ghost use Rattle.rh_turn.specs.Calls.{Acts};
ghost use Rattle.rh_machines.specs.declared.event.NodeEvent.TheVariants as event;
ghost use Rattle.rh_machines.specs.declared.event.NodeReply.TheVariants as reply;
ghost use Rattle.rh_legs.specs.Legs.{Calls, IsWritten};

use crate::bell::{Bell, Call};
use crate::end::LegEnd;
use crate::gate::{Gate, Place};
use rh_io::{Sink, write_whole};
use rh_line::Leg;
use rh_machines::{DrawRoom, Node, NodeEvent, NodeReply, PIECE_ROOM, Piece, PieceRoom};
use rh_turn::{Seat, Turn};
use std::sync::Wait;

/// The right to write on one leg, which one call of `write_leg` spends.
#[derive(Drop)]
pub struct Pen {
    leg: Leg,
}

impl Pen {
    /// A pen for this leg.
    pub fn of(leg: Leg) -> Pen
        ensures { result.leg ≡ leg }
    {
        Pen { leg }
    }
}

/// Writes what the machine puts on a leg, until it has no use for the leg. The room comes back.
///
/// Answers `Failed` where the sink did, behind telling the machine so; `Finished` where the machine
/// has no use for the leg and all that it put there is written; and `Stopped` where the node was
/// stopped.
pub fn write_leg<M: Node, R: Wait, W: Sink, G: Gate>(
    rt: &R,
    turn: &Turn<M>,
    seat: &mut Seat<M>,
    pen: Pen,
    sink: &mut W,
    room: PieceRoom,
    gate: &G,
    bell: &Bell,
) -> (LegEnd, PieceRoom)
    requires { seat.old.turn ≡ turn.now.id }
    ensures written { (calls : Calls) × IsWritten M.next M.reply turn.now.first pen.leg
        seat.old seat.new (W.written sink.old) (W.written sink.new) result.0 calls }
    ensures turn { seat.new.turn ≡ seat.old.turn }
    ensures failed { result.0 ≡ LegEnd.Failed → Rose (W.faults sink.old) (W.faults sink.new) }
    ensures no_end { result.0 ≢ LegEnd.Ended }
    ensures faults { W.faults sink.old ≤ W.faults sink.new }
{
    let leg = pen.leg;
    let mut room = room;
    'writes: for _ in rt.forever() {
        gate.pass(Place::WriterBefore(leg));
        let (piece, heard) = draw(rt, turn, seat, leg, room, bell);
        gate.pass(Place::WriterAfter(leg));
        let Ok(()) = write_whole(sink, piece.bytes()) else {
            let lost = NodeEvent::Broken(leg);
            bell.act(rt, turn, seat, lost, Call::Draws(leg.kind));
            return (LegEnd::Failed, piece.into_room());
        };
        // A draw fills its room, where it can.
        let is_all = piece.bytes().len() < PIECE_ROOM;
        room = piece.into_room();
        if is_all {
            if bell.is_finished(rt, turn, seat, leg) {
                return (LegEnd::Finished, room);
            }
            if bell.is_stopped(rt) {
                return (LegEnd::Stopped, room);
            }
            bell.wait(rt, Call::Draws(leg.kind), heard);
        }
    }
    unreachable!()
}

// Draws a piece into the room. Answers how often writers were called before, too.
fn draw<M: Node, R: Wait>(
    rt: &R,
    turn: &Turn<M>,
    seat: &mut Seat<M>,
    leg: Leg,
    room: PieceRoom,
    bell: &Bell,
) -> (Piece, u64)
    requires { seat.old.turn ≡ turn.now.id }
    ensures acts { Acts M.next M.reply turn.now.first
        (event.Draw leg 32768) (reply.Drawn result.0) seat.old seat.new }
    ensures turn { seat.new.turn ≡ seat.old.turn }
{
    let room = DrawRoom::new(PIECE_ROOM as u16, room);
    let event = NodeEvent::Draw { leg, room };
    let (reply, heard) = bell.act(rt, turn, seat, event, Call::Draws(leg.kind));
    let NodeReply::Drawn(piece) = reply else {
        unreachable!()
    };
    (piece, heard)
}
