//! Reading a leg: what comes is fed, piece by piece.

ghost use Rattle.std.specs.Prelude.{◌≡◌, ◌≤◌, ◌==◌};
ghost use Rattle.rh_io.specs.Counts.{Rose};
ghost use Rattle.rh_turn.specs.Calls.{Acts};
ghost use Rattle.rh_machines.specs.declared.event.NodeEvent.TheVariants as event;
ghost use Rattle.rh_machines.specs.declared.event.NodeReply.{NodeReply as Reply};
ghost use Rattle.rh_legs.specs.Ends.{EndsSo};
ghost use Rattle.rh_legs.specs.Legs.{Calls, IsRead, has_no_use, is_over};

use crate::bell::{Bell, Call};
use crate::end::LegEnd;
use crate::gate::{Gate, Place};
use rh_io::Source;
use rh_line::{Leg, Verdict};
use rh_machines::{Node, NodeEvent, NodeReply, Piece, PieceRoom};
use rh_turn::{Seat, Turn};
use std::sync::Wait;

/// How many pieces are read at most of which the node has no use.
pub const LAST_PIECES: u32 = 256;

/// Feeds what a source gives, piece by piece, until it ends or fails. The room comes back.
///
/// Answers `Ended` or `Failed` where the source did, behind telling the machine so; `Finished` where
/// the source ended and the machine has no use for the leg; and `Stopped` behind 256 pieces of which
/// there was no use, since a peer that goes on for ever would hold the thread.
pub fn read_leg<M: Node, R: Wait, S: Source, G: Gate>(
    rt: &R,
    turn: &Turn<M>,
    seat: &mut Seat<M>,
    leg: Leg,
    source: &mut S,
    room: PieceRoom,
    gate: &G,
    bell: &Bell,
) -> (LegEnd, PieceRoom)
    requires { seat.old.turn ≡ turn.now.id }
    ensures read { (calls : Calls) × IsRead M.next M.reply turn.now.first leg seat.old seat.new
        (S.taken source.old) (S.taken source.new) result.0 calls }
    ensures turn { seat.new.turn ≡ seat.old.turn }
    ensures ended { result.0 ≡ LegEnd.Ended → Rose (S.ends source.old) (S.ends source.new) }
    ensures failed { result.0 ≡ LegEnd.Failed → Rose (S.faults source.old) (S.faults source.new) }
    ensures faults { S.faults source.old ≤ S.faults source.new }
    ensures ends { S.ends source.old ≤ S.ends source.new }
{
    let mut room = room;
    let mut late = 0u32;
    'reads: for _ in rt.forever() {
        gate.pass(Place::ReaderBefore(leg));
        let Ok(count) = source.read(&mut *room) else {
            return (tell_failure(rt, turn, seat, leg, bell), room);
        };
        if count == 0 {
            return (tell_end(rt, turn, seat, leg, bell), room);
        }
        let piece = Piece::new(count, room);
        let (is_late, back) = feed(rt, turn, seat, leg, piece, bell);
        gate.pass(Place::ReaderAfter(leg));
        room = back;
        if is_late {
            late += 1;
            if is_last(late) {
                return (LegEnd::Stopped, room);
            }
        }
    }
    unreachable!()
}

/// Tells the machine that the source failed.
fn tell_failure<M: Node, R: Wait>(
    rt: &R,
    turn: &Turn<M>,
    seat: &mut Seat<M>,
    leg: Leg,
    bell: &Bell,
) -> LegEnd
    requires { seat.old.turn ≡ turn.now.id }
    ensures acts { (answer : Reply)
        × Acts M.next M.reply turn.now.first (event.Broken leg) answer seat.old seat.new }
    ensures turn { seat.new.turn ≡ seat.old.turn }
    ensures failed { result ≡ LegEnd.Failed }
{
    let lost = NodeEvent::Broken(leg);
    bell.act(rt, turn, seat, lost, Call::Draws(leg.kind));
    LegEnd::Failed
}

/// Tells the machine that the source ended, unless it has no use for the leg.
fn tell_end<M: Node, R: Wait>(
    rt: &R,
    turn: &Turn<M>,
    seat: &mut Seat<M>,
    leg: Leg,
    bell: &Bell,
) -> LegEnd
    requires { seat.old.turn ≡ turn.now.id }
    ensures ends { EndsSo M.next M.reply turn.now.first leg seat.old seat.new result }
    ensures turn { seat.new.turn ≡ seat.old.turn }
{
    if bell.is_finished(rt, turn, seat, leg) {
        return LegEnd::Finished;
    }
    let lost = NodeEvent::Ended(leg);
    bell.act(rt, turn, seat, lost, Call::Draws(leg.kind));
    LegEnd::Ended
}

/// Whether as many pieces came of which there was no use as are read at most.
fn is_last(late: u32) -> bool
    ensures { result ≡ (late == 256) }
{
    late == LAST_PIECES
}

/// Feeds a piece. Answers whether there was no use of it, and its room.
fn feed<M: Node, R: Wait>(
    rt: &R,
    turn: &Turn<M>,
    seat: &mut Seat<M>,
    leg: Leg,
    piece: Piece,
    bell: &Bell,
) -> (bool, PieceRoom)
    requires { seat.old.turn ≡ turn.now.id }
    ensures acts { (answer : Reply)
        × Acts M.next M.reply turn.now.first (event.Bytes leg piece) answer seat.old seat.new
        × (result.0 ≡ has_no_use answer) }
    ensures turn { seat.new.turn ≡ seat.old.turn }
{
    let event = NodeEvent::Bytes { leg, piece };
    let (reply, _) = bell.act(rt, turn, seat, event, Call::Draws(leg.kind));
    let NodeReply::Fed {
        verdict,
        finished,
        piece,
    } = reply
    else {
        unreachable!()
    };
    (is_over(verdict) || finished, piece.into_room())
}

fn is_over(verdict: Verdict) -> bool
    ensures { result ≡ is_over verdict }
{
    !matches!(verdict, Verdict::Going)
}
