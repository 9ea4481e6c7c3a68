//! What an in proxy puts, in the order in which it goes.

ghost use Rattle.std.specs.Prelude.{◌≡◌, IfSome};
ghost use Rattle.rh_sig.specs.Values.{MayBeWritten};
ghost use Rattle.rh_shell.specs.Waiting.{with_due};
ghost use Rattle.rh_inproxy.specs.Putting.{first_of, behind_first};

use crate::state::{InProxyRole, Joining, Successor};
use rh_shell::{Begun, Due, Gate, Waiting};

/// No meter holds a packet back.
struct Unmetered;

impl Gate for Unmetered {
    ghost use Rattle.rh_inproxy.specs.Putting.{may_go as goes};

    ghost lets = { λ gate due. goes due };

    fn may_go(&self, _due: &Due) -> bool {
        true
    }
}

/// Takes the packet that waits longest.
#[tactic(auto, using(crate::proofs::Picks::longest))]
fn take_first(waiting: &mut Waiting) -> Option<Due>
    ensures first { result ≡ first_of waiting.old.due }
    ensures rest { waiting.new ≡ with_due waiting.old (behind_first waiting.old.due) }
    ensures writable { IfSome result (λ due. MayBeWritten due.packet) }
{
    waiting.take(&Unmetered)
}

impl InProxyRole {
    ghost use Rattle.std.specs.Prelude.{◌≡◌, []};
    ghost use Rattle.rh_shell.specs.Rules.{put_into};
    ghost use Rattle.rh_inproxy.specs.Answers.{is_some};
    ghost use Rattle.rh_inproxy.specs.Ending.{settled_pick};
    ghost use Rattle.rh_inproxy.specs.InReplacement.{one_less};
    ghost use Rattle.rh_inproxy.specs.Putting as seen;

    /// One of the packets before IN_R2/A2 went.
    fn count_down(&mut self)
        ensures { self.new ≡ record self.old { successor = one_less self.old.successor } }
    {
        if let Successor::Joined(leg, Joining::TellsServer { behind }) = self.successor {
            let behind = behind.saturating_sub(1);
            self.successor = Successor::Joined(leg, Joining::TellsServer { behind });
        }
    }

    /// Puts the packet that waits longest.
    fn put_waiting(&mut self, begun: &mut Begun) -> bool
        requires { begun.old ≡ [] }
        ensures put { (self.new, begun.new) ≡ put_into self.old (seen.put_waiting self.old) }
        ensures told { result ≡ is_some (seen.put_waiting self.old) }
    {
        let Some(due) = take_first(&mut self.waiting) else {
            return false;
        };
        begun.begin_packet(&due.packet);
        self.count_down();
        true
    }

    /// Puts what goes before acknowledgements.
    fn put_early(&mut self, begun: &mut Begun) -> bool
        requires { begun.old ≡ [] }
        ensures put { (self.new, begun.new) ≡ put_into self.old (seen.put_early self.old) }
        ensures told { result ≡ is_some (seen.put_early self.old) }
    {
        self.put_first(begun) || self.put_in_r2_a2(begun) || self.put_waiting(begun)
    }

    /// Puts a packet that is not behind PDUs.
    fn put_control(&mut self, begun: &mut Begun) -> bool
        requires { begun.old ≡ [] }
        ensures put { (self.new, begun.new) ≡ put_into self.old (seen.put_control self.old) }
        ensures told { result ≡ is_some (seen.put_control self.old) }
    {
        self.put_early(begun) || self.put_acks(begun)
    }

    /// Puts a mark: END, and then IN_R1/A6.
    fn put_mark(&mut self, begun: &mut Begun) -> bool
        requires { begun.old ≡ [] }
        ensures put { (self.new, begun.new) ≡ put_into self.old (seen.put_mark self.old) }
        ensures told { result ≡ is_some (seen.put_mark self.old) }
    {
        self.put_end(begun) || self.put_in_r1_a6(begun)
    }

    /// Puts what goes behind the PDUs.
    fn put_behind(&mut self, begun: &mut Begun) -> bool
        requires { begun.old ≡ [] }
        ensures put { (self.new, begun.new) ≡ put_into self.old (seen.put_behind self.old) }
        ensures told { result ≡ is_some (seen.put_behind self.old) }
    {
        self.put_mark(begun) || self.put_ping(begun)
    }

    /// Puts a PDU, or what goes behind them.
    fn put_stream(&mut self, begun: &mut Begun) -> bool
        requires { begun.old ≡ [] }
        ensures put { (self.new, begun.new) ≡ put_into self.old (seen.put_stream self.old) }
        ensures told { result ≡ is_some (seen.put_stream self.old) }
    {
        self.put_pdu(begun) || self.put_behind(begun)
    }

    /// Puts the next message of the is leg.
    fn put_next(&mut self, begun: &mut Begun) -> bool
        requires { begun.old ≡ [] }
        ensures put { (self.new, begun.new) ≡ put_into self.old (seen.next self.old) }
        ensures told { result ≡ is_some (seen.next self.old) }
    {
        self.put_control(begun) || self.put_stream(begun)
    }

    /// Puts the next message of the is leg, behind which the work may be done.
    pub(crate) fn put_on_server_leg(&mut self, begun: &mut Begun)
        requires { begun.old ≡ [] }
        ensures { (self.new, begun.new)
            ≡ put_into self.old (settled_pick (seen.next self.old)) }
    {
        if self.put_next(begun) {
            self.settle();
        }
    }
}
