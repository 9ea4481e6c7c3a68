//! The direct world: one leg, `cs`, between a client and a server.

ghost use Rattle.std.specs.Prelude.{◌≡◌, ◌↔◌, ◌⊎◌, ◌+◌, ◌<◌, ◌≤◌, IsTrue, ◌++◌, [], ◌∷◌, None, IfOk, OnOk, OnErr};
ghost use Rattle.rh_text.specs.Writing.{Writes};

use crate::config::WorldConfig;
use crate::way::Way;
use rh_record::{Answer, Dir, Line, Report, Side};
use std::alloc::{AllocError, Global};
use std::marker::Model;

/// How many PDUs a world counts at most.
pub const MOST_PDUS: u32 = u32::MAX;

/// A client and a server, and the leg that carries what each gives to the other. After want of
/// memory a world may only be dropped.
#[derive(Drop)]
pub struct World {
    up: Box<Way>,
    down: Box<Way>,
}

impl Model for World {
    ghost use Rattle.rh_world.specs.Direct as seen;

    ghost Value = { seen.World };

    ghost view = { λ a. record { up = a.up.value; down = a.down.value } };
}

impl World {
    ghost use Rattle.std.specs.Prelude.{true};
    ghost use Rattle.rh_world.specs.Config.{AreInRange};
    ghost use Rattle.rh_world.specs.Direct as seen;

    /// A world in which nothing was given.
    pub fn new(alloc: Global, config: &WorldConfig) -> Result<World, AllocError>
        requires direct { config.now.direct ≡ true }
        requires in_range { AreInRange config.now }
        ensures { IfOk result (λ world. world ≡ seen.empty) }
    {
        Ok(World {
            up: Box::new(alloc, Way::new(alloc)?)?,
            down: Box::new(alloc, Way::new(alloc)?)?,
        })
    }

    /// Whether so many PDUs were given that no further line may be done.
    pub fn is_full(&self) -> bool
        ensures { IsTrue result ↔ (MOST_PDUS ≤ self.now.up.given + self.now.down.given) }
    {
        let given = u64::from(self.up.given()) + u64::from(self.down.given());
        given >= u64::from(MOST_PDUS)
    }

    /// Does what a line says, and adds its answer to the report. A first line, and one of another
    /// world, does nothing.
    ///
    /// Fails where there is no memory. The report has then not changed; the line was done whole, or
    /// nothing of it.
    pub fn step(
        &mut self,
        alloc: Global,
        line: &Line,
        report: &mut Report,
    ) -> Result<(), AllocError>
        requires { self.old.up.given + self.old.down.given < MOST_PDUS }
        ensures world { OnOk result (self.new ≡ (seen.step self.old line.now).0) }
        ensures report { OnOk result (report.new ≡ report.old ++ (seen.step self.old line.now).1) }
        ensures err { OnErr result (report.new ≡ report.old) }
        ensures half { OnErr result
            ((self.new ≡ self.old) ⊎ (self.new ≡ (seen.step self.old line.now).0)) }
        ensures given { self.new.up.given + self.new.down.given
            ≤ self.old.up.given + self.old.down.given + 1 }
    {
        let answer = match line {
            Line::Give { side, pdu } => self.give(*side, pdu.as_slice()),
            Line::Take { side } => self.take(alloc, *side)?,
            Line::Send {
                leg: None,
                dir,
                count,
            } => self.send(alloc, *dir, *count)?,
            Line::Move {
                leg: None,
                dir,
                count,
            } => self.feed(alloc, *dir, *count)?,
            _ => return Ok(()),
        };
        report.push(answer)
    }

    /// Adds the last lines of a report: how many PDUs were given and taken in each direction.
    ///
    /// Fails where there is no memory; a front of these lines may be added then.
    pub fn last(&self, report: &mut Report) -> Result<(), AllocError>
        ensures { Writes (seen.last self.now) result report.old report.new }
    {
        report.push(Answer::Up {
            given: self.up.given(),
            taken: self.up.taken(),
        })?;
        report.push(Answer::Down {
            given: self.down.given(),
            taken: self.down.taken(),
        })
    }

    fn give(&mut self, side: Side, pdu: &[u8]) -> Answer
        requires { self.old.up.given + self.old.down.given < MOST_PDUS }
        ensures { (self.new, result ∷ []) ≡ seen.step self.old (Line.Give side pdu.now) }
    {
        let answer = match side {
            Side::Client => self.up.give(pdu),
            Side::Server => self.down.give(pdu),
        };
        Answer::Give { side, answer }
    }

    fn take(&mut self, alloc: Global, side: Side) -> Result<Answer, AllocError>
        ensures done { IfOk result (λ answer. (self.new, answer ∷ [])
            ≡ seen.step self.old (Line.Take side)) }
        ensures err { OnErr result (self.new ≡ self.old) }
    {
        let answer = match side {
            Side::Client => self.down.take(alloc)?,
            Side::Server => self.up.take(alloc)?,
        };
        Ok(Answer::Take { side, answer })
    }

    fn send(&mut self, alloc: Global, dir: Dir, count: u32) -> Result<Answer, AllocError>
        ensures done { IfOk result (λ answer. (self.new, answer ∷ [])
            ≡ seen.step self.old (Line.Send None dir count)) }
        ensures err { OnErr result (self.new ≡ self.old) }
    {
        let count = match dir {
            Dir::U => self.up.send(alloc, count)?,
            Dir::D => self.down.send(alloc, count)?,
        };
        Ok(Answer::Send {
            leg: None,
            dir,
            count: Some(count),
        })
    }

    fn feed(&mut self, alloc: Global, dir: Dir, count: u32) -> Result<Answer, AllocError>
        ensures done { IfOk result (λ answer. (self.new, answer ∷ [])
            ≡ seen.step self.old (Line.Move None dir count)) }
        ensures err { OnErr result (self.new ≡ self.old) }
    {
        let bytes = match dir {
            Dir::U => self.up.feed(alloc, count)?,
            Dir::D => self.down.feed(alloc, count)?,
        };
        Ok(Answer::Move {
            leg: None,
            dir,
            bytes: Some(bytes),
        })
    }
}
