//! The near end of a leg, as far as it is the same in all roles.

ghost use Rattle.std.specs.Prelude.{◌≡◌};
ghost use Rattle.rh_shell.specs.NearEnds.{first_stage};

use crate::answers::{Count, Phase};
use crate::begun::Begun;
use crate::role::Role;
use crate::stage::{Body, Stage};
use crate::standing::Standing;
use crate::text::{GreetingText, HeadText};
use rh_line::Leg;
use rh_pdu::Framer;
use rh_sig::Pipe;
use std::marker::Model;

/// What a node keeps of a leg that is up: what came and isn't whole, and what is begun and isn't
/// drawn to its end, in arrays of its own.
#[derive(Drop)]
pub(crate) struct NearEnd {
    pub(crate) leg: Leg,
    pub(crate) pipe: Option<Pipe>,
    pub(crate) stage: Stage,
    pub(crate) head: HeadText,
    pub(crate) greeting: GreetingText,
    pub(crate) framer: Framer,
    pub(crate) place: u64,
    pub(crate) body: Option<Body>,
    pub(crate) count: Count,
    pub(crate) begun: Begun,
    pub(crate) standing: Standing,
    pub(crate) since: u64,
    pub(crate) put_at: u64,
}

impl Model for NearEnd {
    ghost use Rattle.rh_shell.specs.NearEnds as seen;
    ghost use Rattle.rh_shell.specs.Texts.{held_by, Keeps};

    ghost Value = { seen.NearEnd };

    ghost view = { λ e. record {
      leg = e.leg;
      pipe = e.pipe;
      intake = record {
        stage = e.stage;
        held = held_by e.stage e.head e.greeting e.framer;
        place = e.place;
        body = e.body;
      };
      count = e.count;
      begun = e.begun;
      standing = e.standing;
      since = e.since;
      put_at = e.put_at;
    } };

    ghost invariant = { λ e. Keeps e.stage e.head e.greeting e.framer e.body };
}

/// What the first bytes are that are read on a pipe; where no packets come, a head alone may come.
fn first_stage(pipe: Option<Pipe>) -> Stage
    ensures { result ≡ first_stage pipe }
{
    match pipe {
        None | Some(Pipe::CiU | Pipe::CoU | Pipe::CoD) => Stage::Head,
        Some(Pipe::IsD | Pipe::OsD) => Stage::Greeting,
        Some(Pipe::IsU | Pipe::OsU) => Stage::Frames,
    }
}

impl NearEnd {
    ghost use Rattle.std.specs.Prelude.{length};
    ghost use Rattle.rh_shell.specs.NearEnds as seen;

    /// A leg that is up from now on.
    pub(crate) fn new(leg: Leg, pipe: Option<Pipe>, now: u64) -> NearEnd
        ensures { result ≡ seen.new_end leg pipe now }
    {
        NearEnd {
            leg,
            pipe,
            stage: first_stage(pipe),
            head: HeadText::new(),
            greeting: GreetingText::new(),
            framer: Framer::new(),
            place: 0,
            body: None,
            count: Count::Zero,
            begun: Begun::new(),
            standing: Standing::Up,
            since: now,
            put_at: now,
        }
    }

    /// The leg.
    pub(crate) fn leg(&self) -> Leg
        ensures { result ≡ self.now.leg }
    {
        self.leg
    }

    /// The moment of the last bytes, or of `up`.
    pub(crate) fn since(&self) -> u64
        ensures { result ≡ self.now.since }
    {
        self.since
    }

    /// The moment of the last put, or of `up`.
    pub(crate) fn put_at(&self) -> u64
        ensures { result ≡ self.now.put_at }
    {
        self.put_at
    }

    /// How many bytes of an unfinished head, greeting or frame are held: at most 16,384.
    pub(crate) fn held(&self) -> u32
        ensures { result ≡ length self.now.intake.held }
    {
        match self.stage {
            Stage::Head => self.head.bytes().len() as u32,
            Stage::Greeting => self.greeting.bytes().len() as u32,
            Stage::Frames | Stage::PassedOver | Stage::Shut => self.framer.held() as u32,
        }
    }

    /// Whether the other side ended or broke the leg.
    pub(crate) fn is_marked(&self) -> bool
        ensures { result ≡ seen.is_marked self.now.standing }
    {
        matches!(self.standing, Standing::Marked)
    }

    /// The leg is marked as ended.
    pub(crate) fn mark(&mut self)
        ensures { self.new ≡ seen.marked self.old }
    {
        self.standing = Standing::Marked;
    }

    /// Whether the role has no use for the leg any more, or its work is done.
    fn is_useless<R: Role>(&self, role: &R) -> bool
        ensures { result ≡ seen.is_useless R.rules self.now role.now }
    {
        role.is_done(self.leg) || role.phase() == Phase::Ended
    }

    /// Whether nothing is taken or put there any more.
    pub(crate) fn is_over<R: Role>(&self, role: &R) -> bool
        ensures { result ≡ seen.is_over R.rules self.now role.now }
    {
        self.is_marked() || self.is_useless(role)
    }

    /// Whether the role has no use for the leg any more, and nothing is left to draw.
    pub(crate) fn is_finished<R: Role>(&self, role: &R) -> bool
        ensures { result ≡ seen.is_finished R.rules role.now self.now }
    {
        self.is_marked() || (self.is_useless(role) && self.begun.is_empty())
    }

    /// Whether the last message is drawn to its end.
    pub(crate) fn is_drawn(&self) -> bool
        ensures { result ≡ seen.is_empty self.now.begun }
    {
        self.begun.is_empty()
    }
}
