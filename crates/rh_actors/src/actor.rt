//! Who acts on the machine of a node.

ghost use Rattle.std.specs.Prelude.{◌≡◌, ◌-◌, ◌≤◌, [], true, IfOk, OnOk};
ghost use Rattle.std.specs.Arc.{arc_value};
ghost use Rattle.rh_turn.specs.Calls.{Acts};
ghost use Rattle.rh_machines.specs.declared.event.NodeEvent.TheVariants as event;
ghost use Rattle.rh_machines.specs.declared.event.NodeReply.{NodeReply as Reply};
ghost use Rattle.rh_legs.specs.Legs.{Calls, IsRead, IsWritten};
ghost use Rattle.rh_actors.specs.Living.{says_live};

use rh_io::{NoMemory, Sink, Source};
use rh_legs::{Bell, Call, Gate, LegEnd, NodeEnd, Pen, read_leg, write_leg};
use rh_line::{Leg, State};
use rh_machines::{Node, NodeEvent, NodeReply, PieceRoom};
use rh_turn::{Seat, Turn};
use std::alloc::Global;
use std::sync::{Arc, Wait};

/// The most jobs of one node: those of a server's eight slots, its keeper, giver and taker; and
/// who gathers what they answer.
pub const SEATS: u32 = 20;

/// A seat at the turn of a node, with the bell by which the node's jobs wake one another.
#[derive(Drop)]
pub struct Actor<M: Node>
where
    M::State: Drop,
{
    /// The turn of the node.
    pub turn: Arc<Turn<M>, Global>,
    /// Who acts there.
    pub seat: Seat<M>,
    /// What wakes the node's jobs.
    pub bell: Arc<Bell, Global>,
    pub ghost at: { seat.turn ≡ (arc_value turn).id },
}

// Whether a machine that replies so may still take and give PDUs.
fn says_live(reply: &NodeReply) -> bool
    ensures { result ≡ says_live reply.now }
{
    matches!(reply, NodeReply::State(State::Opening | State::Open))
}

impl<M: Node> Actor<M>
where
    M::State: Drop,
{
    /// The first actor of a machine in this state, with a part for each job. Fails where there is
    /// no memory.
    pub fn new(alloc: Global, state: M::State) -> Result<Actor<M>, NoMemory>
        ensures first { IfOk result (λ actor. (arc_value actor.turn).first ≡ state) }
        ensures seats { IfOk result (λ actor. (arc_value actor.turn).seats ≡ SEATS) }
        ensures seat { IfOk result (λ actor. (actor.seat.seen ≡ []) × (actor.seat.mine ≡ [])
            × (actor.seat.parts ≡ SEATS)) }
    {
        let Ok((turn, seat)) = Turn::<M>::new(alloc, state, SEATS) else {
            return Err(NoMemory);
        };
        Ok(Actor {
            turn: Arc::new(alloc, turn)?,
            seat,
            bell: Arc::new(alloc, Bell::new())?,
        })
    }

    /// An actor for a job, which gets one of the parts. Fails where there is no memory.
    pub fn split(&mut self) -> Result<Actor<M>, NoMemory>
        requires { 2 ≤ self.old.seat.parts }
        ensures turn { self.new.turn ≡ self.old.turn }
        ensures parts { OnOk result (self.new.seat.parts ≡ self.old.seat.parts - 1) }
        ensures same { IfOk result (λ actor. arc_value actor.turn ≡ arc_value self.old.turn) }
        ensures seat { IfOk result (λ actor.
            actor.seat ≡ record self.old.seat { mine = []; parts = 1 }) }
        ensures kept { OnOk result
            (self.new.seat ≡ record self.old.seat { parts = self.old.seat.parts - 1 }) }
    {
        let turn = Arc::try_clone(&self.turn)?;
        let bell = Arc::try_clone(&self.bell)?;
        let seat = turn.split(&mut self.seat);
        Ok(Actor { turn, seat, bell })
    }

    /// Acts an event, and calls whom it may concern. Answers the reply, and how often `call` was
    /// called up to this event.
    pub fn act<R: Wait>(&mut self, rt: &R, event: NodeEvent, call: Call) -> (NodeReply, u64)
        ensures acts { Acts M.next M.reply (arc_value self.old.turn).first event result.0
            self.old.seat self.new.seat }
        ensures replied { (s : M.State) × (result.0 ≡ M.reply s event) }
        ensures turn { self.new.turn ≡ self.old.turn }
    {
        self.bell.act(rt, &self.turn, &mut self.seat, event, call)
    }

    /// Acts an event as `act` does, and calls nobody until the bell's `ring_owed`.
    pub fn act_quietly<R: Wait>(&mut self, rt: &R, event: NodeEvent, call: Call) -> (NodeReply, u64)
        ensures acts { Acts M.next M.reply (arc_value self.old.turn).first event result.0
            self.old.seat self.new.seat }
        ensures replied { (s : M.State) × (result.0 ≡ M.reply s event) }
        ensures turn { self.new.turn ≡ self.old.turn }
    {
        self.bell
            .act_quietly(rt, &self.turn, &mut self.seat, event, call)
    }

    /// Whether the node may still take and give PDUs, and connect legs: its machine says so, and it
    /// is not stopped.
    pub fn is_live<R: Wait>(&mut self, rt: &R, call: Call) -> bool
        ensures asked { (answer : Reply) × Acts M.next M.reply (arc_value self.old.turn).first
            event.State answer self.old.seat self.new.seat
            × (result ≡ true → says_live answer ≡ true) }
        ensures turn { self.new.turn ≡ self.old.turn }
    {
        let (state, _) = self.act(rt, NodeEvent::State, call);
        says_live(&state) && !self.bell.is_stopped(rt)
    }

    /// How the machine ended: with a cause where it closed.
    pub fn end<R: Wait>(&mut self, rt: &R) -> NodeEnd
        ensures turn { self.new.turn ≡ self.old.turn }
    {
        match self.act(rt, NodeEvent::State, Call::Keeps).0 {
            NodeReply::State(State::Closed(cause)) => NodeEnd::Closed(cause),
            _ => NodeEnd::Ended,
        }
    }

    /// Feeds what a source gives on a leg, until it ends or fails. The room comes back.
    pub fn read<R: Wait, S: Source, G: Gate>(
        &mut self,
        rt: &R,
        leg: Leg,
        source: &mut S,
        room: PieceRoom,
        gate: &G,
    ) -> (LegEnd, PieceRoom)
        ensures read { (calls : Calls) × IsRead M.next M.reply (arc_value self.old.turn).first leg
            self.old.seat self.new.seat (S.taken source.old) (S.taken source.new) result.0 calls }
        ensures turn { self.new.turn ≡ self.old.turn }
    {
        read_leg(
            rt,
            &self.turn,
            &mut self.seat,
            leg,
            source,
            room,
            gate,
            &self.bell,
        )
    }

    /// Writes what the machine puts on a leg, until it has no use for the leg, or the sink fails.
    /// The room comes back.
    pub fn write<R: Wait, W: Sink, G: Gate>(
        &mut self,
        rt: &R,
        pen: Pen,
        sink: &mut W,
        room: PieceRoom,
        gate: &G,
    ) -> (LegEnd, PieceRoom)
        ensures written { (calls : Calls) × IsWritten M.next M.reply (arc_value self.old.turn).first
            pen.leg self.old.seat self.new.seat (W.written sink.old) (W.written sink.new)
            result.0 calls }
        ensures turn { self.new.turn ≡ self.old.turn }
    {
        write_leg(
            rt,
            &self.turn,
            &mut self.seat,
            pen,
            sink,
            room,
            gate,
            &self.bell,
        )
    }

    /// Tells all jobs of the node that it is to end, where the job that asks ended by a fault.
    pub fn stop_at<R: Wait>(&self, rt: &R, end: NodeEnd) {
        if end != NodeEnd::Ended {
            self.bell.stop(rt);
        }
    }
}
