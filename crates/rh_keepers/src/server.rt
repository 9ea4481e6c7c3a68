//! How a server is kept: callers are accepted, and each is known by its first frame.

ghost use Rattle.std.specs.Prelude.{◌≡◌, ◌≢◌, IfErr};
ghost use Rattle.std.specs.Arc.{arc_value};
ghost use Rattle.rh_server.specs.FirstKinds.{first_kind};
ghost use Rattle.rh_keepers.specs.Callers.{met_by};
ghost use Rattle.rh_keepers.specs.Faults.{CookiesFail, NetFails};
ghost use Rattle.rh_keepers.specs.Keepers.{HasAsked, IsKeepersEnd, KeptOn, no_causes, of_others};

use crate::keeper::{Came, Keeper, net_failed, shut};
use crate::telling::is_live;
use rh_legs::NodeEnd;
use rh_line::{Leg, LegKind};
use rh_machines::Node;
use rh_net::{Clock, Cookies, Net, Ready, Way};
use rh_rts::NO_COOKIE;
use rh_server::{FirstKind, first_kind};
use rh_slots::First;
use std::alloc::Global;
use std::sync::Wait;
use std::time;

/// How many callers a server holds at one time whose first frame is not whole.
const STRANGERS: usize = 8;

/// How long a look at a caller takes, in milliseconds.
const LOOK: u32 = 10;

/// How long a caller has for its first frame, in milliseconds.
const FIRST_FRAME_WITHIN: u64 = 5000;

// A caller whose first frame is not whole: what was read so far, and when it came.
#[derive(Drop)]
struct Stranger<I: Drop, O: Drop> {
    first: First,
    source: I,
    sink: O,
    since: u64,
}

// What a caller turned out to be.
#[derive(Clone, Copy)]
enum Met {
    Unknown,
    Leg(LegKind),
    Nobody,
}

impl<I: Ready + Drop, O: Drop> Stranger<I, O> {
    // Reads more of the first frame, where something is there.
    fn look(&mut self, now: u64) -> Met {
        let met = if self.source.ready(LOOK) {
            match self.first.read(&mut self.source) {
                Ok(0) | Err(_) => Met::Nobody,
                Ok(_) => kind_of(&self.first),
            }
        } else {
            Met::Unknown
        };
        match met {
            Met::Unknown if FIRST_FRAME_WITHIN <= now.saturating_sub(self.since) => Met::Nobody,
            met => met,
        }
    }
}

// Who a caller is, by these first bytes.
fn kind_of(first: &First) -> Met
    ensures { result ≡ met_by (first_kind first.now) }
{
    match first_kind(first.bytes()) {
        FirstKind::Need => Met::Unknown,
        FirstKind::In => Met::Leg(LegKind::InServer),
        FirstKind::Out => Met::Leg(LegKind::OutServer),
        FirstKind::Stranger => Met::Nobody,
    }
}

// The numbers of the next leg of each kind.
#[derive(Clone, Copy)]
struct Numbers {
    ins: u32,
    outs: u32,
}

impl Numbers {
    fn next(&self, kind: LegKind) -> u32 {
        match kind {
            LegKind::InServer => self.ins,
            _ => self.outs,
        }
    }

    fn count(&mut self, kind: LegKind) {
        match kind {
            LegKind::InServer => self.ins = self.ins.saturating_add(1),
            _ => self.outs = self.outs.saturating_add(1),
        }
    }
}

impl<M: Node, N: Net + Drop, C: Clock + Drop, K: Cookies + Drop> Keeper<M, N, C, K>
where
    M::State: Drop,
    N::In: Ready + Drop,
    N::Out: Drop,
    N::Way: Drop,
{
    // Waits a moment for the next caller, where there is room for one.
    fn accept_stranger<R: Wait>(
        &mut self,
        rt: &R,
        strangers: &mut Vec<Stranger<N::In, N::Out>>,
    ) -> Result<(), NodeEnd>
        ensures end { IfErr result (IsKeepersEnd (NetFails N.counts) (CookiesFail K.faults)) }
        ensures failed { IfErr result (λ end. end ≢ NodeEnd.Ended) }
        ensures still { KeptOn M.next M.reply no_causes self.old.actor.turn self.new.actor.turn
            self.old.actor.seat self.new.actor.seat }
    {
        if STRANGERS <= strangers.len() {
            return Ok(());
        }
        let Some(came) = self.way.accept() else {
            return Ok(());
        };
        let Ok((source, sink)) = self.desk.leg(rt, came) else {
            return Err(net_failed(&mut self.unreached, self.plan.at));
        };
        let first = First::new();
        let since = self.desk.now(rt);
        match strangers.push(Stranger {
            first,
            source,
            sink,
            since,
        }) {
            Ok(()) => Ok(()),
            Err(_) => Err(NodeEnd::NoMemory),
        }
    }

    // Brings a caller's leg up, by the next number of its kind.
    fn admit<R: Wait>(
        &mut self,
        rt: &R,
        kind: LegKind,
        numbers: &mut Numbers,
        came: Came<N::In, N::Out>,
    )
        ensures { KeptOn M.next M.reply (of_others M.reply C.moment N.counts N.In.faults)
            self.old.actor.turn self.new.actor.turn self.old.actor.seat self.new.actor.seat }
    {
        let number = numbers.next(kind);
        if self.bring_up(rt, Leg { kind, number }, NO_COOKIE, came) {
            numbers.count(kind);
        }
    }

    // Looks at one caller, and has it wait further where it isn't known yet.
    fn meet<R: Wait>(
        &mut self,
        rt: &R,
        stranger: Stranger<N::In, N::Out>,
        strangers: &mut Vec<Stranger<N::In, N::Out>>,
        numbers: &mut Numbers,
    )
        ensures { KeptOn M.next M.reply (of_others M.reply C.moment N.counts N.In.faults)
            self.old.actor.turn self.new.actor.turn self.old.actor.seat self.new.actor.seat }
    {
        let mut stranger = stranger;
        let met = stranger.look(self.told);
        if matches!(met, Met::Unknown) {
            let _ = strangers.push(stranger);
            return;
        }
        let Stranger {
            first,
            mut source,
            mut sink,
            ..
        } = stranger;
        let Met::Leg(kind) = met else {
            shut(&mut source, &mut sink);
            return;
        };
        let came = Came {
            first,
            source,
            sink,
        };
        self.admit(rt, kind, numbers, came);
    }

    // Looks at each caller once.
    fn meet_all<R: Wait>(
        &mut self,
        rt: &R,
        strangers: &mut Vec<Stranger<N::In, N::Out>>,
        numbers: &mut Numbers,
    )
        ensures { KeptOn M.next M.reply (of_others M.reply C.moment N.counts N.In.faults)
            self.old.actor.turn self.new.actor.turn self.old.actor.seat self.new.actor.seat }
    {
        'callers: for _ in 0..strangers.len() {
            if strangers.is_empty() {
                return;
            }
            let stranger = strangers.remove(0);
            self.meet(rt, stranger, strangers, numbers);
        }
    }

    /// Keeps a server until it ended, closed or was stopped.
    pub(crate) fn keep_server<R: Wait + time::Clock>(&mut self, alloc: Global, rt: &R) -> NodeEnd
        ensures kept { KeptOn M.next M.reply (of_others M.reply C.moment N.counts N.In.faults)
            self.old.actor.turn self.new.actor.turn self.old.actor.seat self.new.actor.seat }
        ensures end { IsKeepersEnd (NetFails N.counts) (CookiesFail K.faults) result }
        ensures left { result ≡ NodeEnd.Ended → HasAsked M.next M.reply
            (arc_value self.old.actor.turn).first self.new.actor.seat }
    {
        let mut strangers = Vec::new(alloc);
        let mut numbers = Numbers { ins: 1, outs: 1 };
        'rounds: for _ in rt.forever() {
            self.tick_in_time(rt);
            if !is_live(rt, &mut self.actor) {
                return NodeEnd::Ended;
            }
            match self.accept_stranger(rt, &mut strangers) {
                Ok(()) => {}
                Err(end) => {
                    self.actor.stop_at(rt, end);
                    return end;
                }
            }
            self.meet_all(rt, &mut strangers, &mut numbers);
        }
        unreachable!()
    }
}
