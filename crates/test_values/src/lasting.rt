//! A node of a role that does next to nothing: what no other role comes to.

use rh_line::{Cause, Leg, LegKind, LineTake, RecvLine, RecycleFault, Verdict};
use rh_rts::Cookie;
use rh_shell::{
    Begun, Count, EndRole, GiveRefused, HeadRefused, HeadTaken, Phase, RecycleRefused, Refused,
    Role, Rooms, Shell,
};
use rh_sig::{Named, Pipe};
use rh_window::LEAST_WINDOW;
use std::alloc::{AllocError, Global};
use std::test::Fail;

/// A role whose writing channel has the last number, and whose legs are watched for silence. It
/// takes and puts nothing.
#[derive(Drop)]
struct Lasting {
    phase: Phase,
    line: RecvLine,
}

impl Role for Lasting {
    ghost use Rattle.std.specs.Prelude.{Some, None, Err, true, false};
    ghost use Rattle.rh_shell.specs.declared.answers.HeadRefused.TheVariants.{Status};
    ghost use Rattle.rh_shell.specs.declared.answers.Phase.TheVariants.{Open};
    ghost use Rattle.rh_shell.specs.declared.answers.Refused.TheVariants.{Unexpected};

    ghost rules = { record {
      phase = λ s. s.phase;
      wants = λ s leg. true;
      may_up = λ s leg. true;
      was_up = λ s leg. false;
      up = λ s leg cookie. record s { phase = Open };
      pipe = λ s leg. None;
      head = λ s leg text. (s, Err (Status 200));
      pdu = λ s leg count pdu. (s, Err Unexpected);
      packet = λ s leg count named. (s, Err Unexpected);
      is_done = λ s leg. false;
      put = λ s leg. None;
      drawn = λ s leg. s;
      only_marks = λ s leg. false;
      mark = λ s leg. s;
      answers_on = λ s. None;
      silence = λ s leg. Some 120000;
      ping_after = λ s leg. None;
      ping = λ s leg. s;
    } };

    fn phase(&self) -> Phase {
        self.phase
    }

    fn wants(&self, _leg: Leg) -> bool {
        true
    }

    fn may_up(&self, _leg: Leg) -> bool {
        true
    }

    fn was_up(&self, _leg: Leg) -> bool {
        false
    }

    fn up(&mut self, _leg: Leg, _cookie: Cookie) {
        self.phase = Phase::Open;
    }

    fn pipe(&self, _leg: Leg) -> Option<Pipe> {
        None
    }

    fn head(&mut self, _leg: Leg, _text: &[u8]) -> Result<HeadTaken, HeadRefused> {
        Err(HeadRefused::Status(200))
    }

    fn pdu(&mut self, _leg: Leg, _count: Count, _pdu: &[u8]) -> Result<(), Refused> {
        Err(Refused::Unexpected)
    }

    fn packet(&mut self, _leg: Leg, _count: Count, _packet: Named) -> Result<(), Refused> {
        Err(Refused::Unexpected)
    }

    fn is_done(&self, _leg: Leg) -> bool {
        false
    }

    fn put(&mut self, _leg: Leg, _begun: &mut Begun) {}

    fn drawn(&mut self, _leg: Leg) {}

    fn only_marks(&self, _leg: Leg) -> bool {
        false
    }

    fn mark(&mut self, _leg: Leg) {}

    fn answers_on(&self) -> Option<Leg> {
        None
    }

    fn silence(&self, _leg: Leg) -> Option<u32> {
        Some(120_000)
    }

    fn ping_after(&self, _leg: Leg) -> Option<u64> {
        None
    }

    fn ping(&mut self, _leg: Leg) {}
}

impl EndRole for Lasting {
    ghost use Rattle.std.specs.Prelude.{Err};
    ghost use Rattle.rh_line.specs.Lines.{after_take};
    ghost use Rattle.rh_shell.specs.declared.end_role.GiveRefused.TheVariants.{Closing};
    ghost use Rattle.rh_shell.specs.declared.end_role.RecycleRefused.TheVariants.{Last};

    ghost acts = { record {
      give = λ s pdu. (s, Err Closing);
      line = λ s. s.line;
      take = λ s. record s { line = after_take s.line };
      close = λ s. s;
      recycle = λ s. (s, Err Last);
      channels = λ s. (4294967295, 1);
    } };

    fn give(&mut self, _pdu: &[u8]) -> Result<(), GiveRefused> {
        Err(GiveRefused::Closing)
    }

    fn take(&mut self, room: &mut [u8; 8192]) -> LineTake {
        self.line.take(room)
    }

    fn close(&mut self) {}

    fn recycle(&mut self) -> Result<(), RecycleRefused> {
        Err(RecycleRefused::Last)
    }

    fn channels(&self) -> (u32, u32) {
        (u32::MAX, 1)
    }
}

const OS1: Leg = Leg {
    kind: LegKind::OutServer,
    number: 1,
};

const IS1: Leg = Leg {
    kind: LegKind::InServer,
    number: 1,
};

/// A node with no leg, and room for one of each kind from the server.
fn new_node(alloc: Global) -> Result<Shell<Lasting>, AllocError> {
    let rooms = Rooms {
        client_out: 0,
        out_server: 1,
        client_in: 0,
        in_server: 1,
    };
    let role = Lasting {
        phase: Phase::Opening,
        line: RecvLine::new(alloc, LEAST_WINDOW)?,
    };
    Shell::new(alloc, role, rooms)
}

#[test]
fn the_last_channel_stays_and_the_first_silent_leg_is_told(rt: HostRuntime) -> Result<(), Fail> {
    let cause = Cause::Silent {
        leg: OS1,
        since: 0,
        now: 130_000,
    };
    // The legs come up in either order.
    for (one, other) in [(OS1, IS1), (IS1, OS1)] {
        let mut node = new_node(rt.alloc())?;
        node.up(one, Cookie([0; 16]));
        node.up(other, Cookie([0; 16]));
        assert!(rt; node.recycle() == Err(RecycleFault::Last));
        assert!(rt; node.tick(130_000) == Verdict::Closed(cause));
    }
    Ok(())
}
