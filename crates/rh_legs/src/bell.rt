//! How the jobs of a node take turns, and wake one another.

ghost use Rattle.std.specs.Prelude.{◌≡◌, true};
ghost use Rattle.rh_turn.specs.Calls.{Acts};
ghost use Rattle.rh_machines.specs.declared.event.NodeEvent.TheVariants as event;
ghost use Rattle.rh_machines.specs.declared.event.NodeReply.{NodeReply as Reply};
ghost use Rattle.rh_machines.specs.declared.event.NodeReply.TheVariants as reply;

use crate::called::{ALL, Called, Concern, NONE, WORKERS, concern_behind, concern_of};
use rh_line::{Leg, LegKind, State};
use rh_machines::{Node, NodeEvent, NodeReply};
use rh_turn::{Seat, Turn};
use std::sync::{Condvar, CondvarTimeouts, Mutex, Wait};
use std::time::{Clock, Duration};

/// For how many events behind one that concerns everybody all but the keeper are called at each.
const ATTENTIVE: u32 = 64;

/// At how many events behind each other jobs are passed over at most.
const PASSED_OVER: u32 = 16;

/// What a job waits for.
#[derive(Clone, Copy)]
pub enum Call {
    /// A writer of legs of this kind: that there may be something to draw.
    Draws(LegKind),
    /// A taker: that there may be a PDU to take.
    Takes,
    /// A giver: that the queue may have room.
    Gives,
    /// A keeper: that a leg may be wanted, or finished.
    Keeps,
}

// How often each was called, and whether the node is to stop.
#[derive(Clone, Copy)]
struct Counts {
    client_out: u64,
    out_server: u64,
    client_in: u64,
    in_server: u64,
    takes: u64,
    gives: u64,
    keeps: u64,
    // Who is to be called behind events that were acted quietly.
    owed: Called,
    // How many events came behind the last one that concerned everybody.
    calm: u32,
    // At how many events jobs were passed over since all of them were called.
    passed_over: u32,
    // Whether the keeper looks at the node again.
    is_kept: bool,
    is_stopped: bool,
}

impl Counts {
    fn new() -> Counts {
        Counts {
            client_out: 0,
            out_server: 0,
            client_in: 0,
            in_server: 0,
            takes: 0,
            gives: 0,
            keeps: 0,
            owed: NONE,
            calm: 0,
            passed_over: 0,
            is_kept: true,
            is_stopped: false,
        }
    }

    fn of(&self, call: Call) -> u64 {
        match call {
            Call::Draws(LegKind::ClientOut) => self.client_out,
            Call::Draws(LegKind::OutServer) => self.out_server,
            Call::Draws(LegKind::ClientIn) => self.client_in,
            Call::Draws(LegKind::InServer) => self.in_server,
            Call::Takes => self.takes,
            Call::Gives => self.gives,
            Call::Keeps => self.keeps,
        }
    }

    fn count(&mut self, called: Called) {
        self.client_out = self.client_out.wrapping_add(u64::from(called.client_out));
        self.out_server = self.out_server.wrapping_add(u64::from(called.out_server));
        self.client_in = self.client_in.wrapping_add(u64::from(called.client_in));
        self.in_server = self.in_server.wrapping_add(u64::from(called.in_server));
        self.takes = self.takes.wrapping_add(u64::from(called.takes));
        self.gives = self.gives.wrapping_add(u64::from(called.gives));
        self.keeps = self.keeps.wrapping_add(u64::from(called.keeps));
    }

    // Whom an event calls.
    fn called(&mut self, concern: Concern) -> Called {
        match concern {
            Concern::Nobody => NONE,
            Concern::Mostly(called) => {
                self.calm = self.calm.saturating_add(1);
                self.passed_over = self.passed_over.saturating_add(1);
                if self.is_attentive() {
                    self.passed_over = 0;
                    called.and(WORKERS)
                } else {
                    called
                }
            }
            Concern::Everybody => {
                self.calm = 0;
                self.passed_over = 0;
                ALL
            }
        }
    }

    // Whether all but the keeper are called, whomever an event mostly concerns.
    fn is_attentive(&self) -> bool {
        self.calm <= ATTENTIVE || PASSED_OVER <= self.passed_over || !self.is_kept
    }

    // The keeper looks, and finds this. It calls the jobs that were passed over.
    fn looked(&mut self, found: &NodeReply) -> Called {
        if matches!(found, NodeReply::State(State::Ended | State::Closed(_))) {
            self.is_kept = false;
        }
        if self.passed_over == 0 {
            return NONE;
        }
        self.passed_over = 0;
        WORKERS
    }

    // Whom an event of this concern calls, which was replied so to a job that waits for `call`.
    fn called_behind(&mut self, concern: Concern, reply: &NodeReply, call: Call) -> Called {
        let called = self.called(concern_behind(concern, reply));
        match call {
            Call::Keeps => called.and(self.looked(reply)),
            _ => called,
        }
    }
}

/// What the jobs of a node share beside its turn.
///
/// A job acts under a lock, so whoever draws a ticket of the turn is served at once, and no thread
/// looks again and again. It learns under the same lock how often it was called up to its event,
/// and sleeps only where it wasn't called since; so it misses no call.
///
/// While PDUs pass, most events concern one writer, the taker or the giver, and the keeper, and only
/// those are called. The others are called at each 16th of these events, and when the keeper looks at
/// the node; and at each event at first, behind one that concerns everybody, as that a leg is up.
#[derive(Drop)]
pub struct Bell {
    counts: Mutex<Counts>,
    client_out: Condvar,
    out_server: Condvar,
    client_in: Condvar,
    in_server: Condvar,
    takes: Condvar,
    gives: Condvar,
    keeps: Condvar,
}

impl Bell {
    /// A bell that was not rung yet.
    pub fn new() -> Bell {
        Bell {
            counts: Mutex::new(Counts::new()),
            client_out: Condvar::new(),
            out_server: Condvar::new(),
            client_in: Condvar::new(),
            in_server: Condvar::new(),
            takes: Condvar::new(),
            gives: Condvar::new(),
            keeps: Condvar::new(),
        }
    }

    /// Acts an event, and calls whom it may concern. Answers the reply, and how often `call` was
    /// called up to this event.
    pub fn act<M: Node, R: Wait>(
        &self,
        rt: &R,
        turn: &Turn<M>,
        seat: &mut Seat<M>,
        event: NodeEvent,
        call: Call,
    ) -> (NodeReply, u64)
        requires { seat.old.turn ≡ turn.now.id }
        ensures acts { Acts M.next M.reply turn.now.first event result.0 seat.old seat.new }
        ensures replied { (s : M.State) × (result.0 ≡ M.reply s event) }
        ensures turn { seat.new.turn ≡ seat.old.turn }
    {
        let mut counts = self.counts.lock(rt);
        let (reply, called) = act_counted(rt, &mut counts, turn, seat, event, call);
        counts.count(called);
        let heard = counts.of(call);
        drop(counts);
        self.ring(called);
        (reply, heard)
    }

    /// Acts an event, and calls nobody until `ring_owed`.
    pub fn act_quietly<M: Node, R: Wait>(
        &self,
        rt: &R,
        turn: &Turn<M>,
        seat: &mut Seat<M>,
        event: NodeEvent,
        call: Call,
    ) -> (NodeReply, u64)
        requires { seat.old.turn ≡ turn.now.id }
        ensures acts { Acts M.next M.reply turn.now.first event result.0 seat.old seat.new }
        ensures replied { (s : M.State) × (result.0 ≡ M.reply s event) }
        ensures turn { seat.new.turn ≡ seat.old.turn }
    {
        let mut counts = self.counts.lock(rt);
        let (reply, called) = act_counted(rt, &mut counts, turn, seat, event, call);
        counts.owed = counts.owed.and(called);
        let heard = counts.of(call);
        drop(counts);
        (reply, heard)
    }

    /// Calls whom the events concern that were acted quietly.
    pub fn ring_owed<R: Wait>(&self, rt: &R) {
        let mut counts = self.counts.lock(rt);
        let owed = counts.owed;
        counts.owed = NONE;
        counts.count(owed);
        drop(counts);
        self.ring(owed);
    }

    /// Whether the machine has no use for the leg, and nothing is left to draw.
    pub fn is_finished<M: Node, R: Wait>(
        &self,
        rt: &R,
        turn: &Turn<M>,
        seat: &mut Seat<M>,
        leg: Leg,
    ) -> bool
        requires { seat.old.turn ≡ turn.now.id }
        ensures acts { (answer : Reply)
            × Acts M.next M.reply turn.now.first (event.Finished leg) answer seat.old seat.new
            × (result ≡ true → answer ≡ reply.Told true) }
        ensures turn { seat.new.turn ≡ seat.old.turn }
    {
        let event = NodeEvent::Finished(leg);
        let (reply, _) = self.act(rt, turn, seat, event, Call::Draws(leg.kind));
        matches!(reply, NodeReply::Told(true))
    }

    /// Stops the node: its legs are to be written no more, and its jobs are to end.
    pub fn stop<R: Wait>(&self, rt: &R) {
        let mut counts = self.counts.lock(rt);
        counts.is_stopped = true;
        drop(counts);
        self.ring(ALL);
    }

    /// Whether the node is stopped.
    pub fn is_stopped<R: Wait>(&self, rt: &R) -> bool {
        self.counts.lock(rt).is_stopped
    }

    /// Waits until `call` was called more often than `heard`, or the node is stopped.
    pub fn wait<R: Wait>(&self, rt: &R, call: Call, heard: u64) {
        let counts = self.counts.lock(rt);
        let _counts = self.bell_of(call).wait_while(rt, counts, |counts| {
            counts.of(call) == heard && !counts.is_stopped
        });
    }

    /// The same, for so long at most.
    pub fn wait_for<R: Wait + Clock>(&self, rt: &R, call: Call, heard: u64, most: Duration) {
        let counts = self.counts.lock(rt);
        let (_counts, _) = self
            .bell_of(call)
            .wait_timeout_while(rt, counts, most, |counts| {
                counts.of(call) == heard && !counts.is_stopped
            });
    }

    fn bell_of(&self, call: Call) -> &Condvar {
        match call {
            Call::Draws(LegKind::ClientOut) => &self.client_out,
            Call::Draws(LegKind::OutServer) => &self.out_server,
            Call::Draws(LegKind::ClientIn) => &self.client_in,
            Call::Draws(LegKind::InServer) => &self.in_server,
            Call::Takes => &self.takes,
            Call::Gives => &self.gives,
            Call::Keeps => &self.keeps,
        }
    }

    fn ring(&self, called: Called) {
        ring_where(called.client_out, &self.client_out);
        ring_where(called.out_server, &self.out_server);
        ring_where(called.client_in, &self.client_in);
        ring_where(called.in_server, &self.in_server);
        ring_where(called.takes, &self.takes);
        ring_where(called.gives, &self.gives);
        ring_where(called.keeps, &self.keeps);
    }
}

// Acts an event for a job that waits for `call`. Answers the reply, and who is to be called.
fn act_counted<M: Node, R: Wait>(
    rt: &R,
    counts: &mut Counts,
    turn: &Turn<M>,
    seat: &mut Seat<M>,
    event: NodeEvent,
    call: Call,
) -> (NodeReply, Called)
    requires { seat.old.turn ≡ turn.now.id }
    ensures acts { Acts M.next M.reply turn.now.first event result.0 seat.old seat.new }
    ensures replied { (s : M.State) × (result.0 ≡ M.reply s event) }
    ensures turn { seat.new.turn ≡ seat.old.turn }
{
    let concern = concern_of(M::ROLE, &event);
    let reply = turn.act(rt, seat, event);
    let called = counts.called_behind(concern, &reply, call);
    (reply, called)
}

// Wakes those who wait here, where they are called.
fn ring_where(is_called: bool, bell: &Condvar) {
    if is_called {
        bell.notify_all();
    }
}
