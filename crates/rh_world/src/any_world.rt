//! The world of a recording of either form.

ghost use Rattle.std.specs.Prelude.{◌≡◌, ◌+◌, ◌<◌, ◌≤◌, IfOk, OnOk};
ghost use Rattle.rh_text.specs.Writing.{Writes};

use crate::config::WorldConfig;
use crate::roles::Roles;
use crate::roles_world::RolesWorld;
use crate::world::World;
use rh_nodes::Half;
use rh_record::{Line, Report};
use std::alloc::{AllocError, Global};

/// What the lines of a recording made so far. After want of memory it may only be dropped.
#[derive(Drop)]
pub enum AnyWorld {
    /// The first line is still to come.
    Before,
    Direct(World),
    /// A world of roles, made of these where no more settings come.
    Settings(Roles),
    Roles(RolesWorld),
}

impl AnyWorld {
    ghost use Rattle.rh_world.specs.declared.world.TheConstants.{MOST_PDUS};
    ghost use Rattle.rh_record.specs.declared.line.Line.TheVariants.{Settle};
    ghost use Rattle.rh_world.specs.declared.any_world.AnyWorld.TheVariants.{Direct, Settings};
    ghost use Rattle.rh_world.specs.Config.{roles_config};
    ghost use Rattle.rh_world.specs.Any as seen;
    ghost use Rattle.rh_world.specs.Direct as direct;

    // Worlds pass through the stack where they are made. Inlined into what is done for each line,
    // that would clear their room there each time.

    /// Becomes a direct world.
    #[inline(never)]
    fn make_direct(&mut self, alloc: Global) -> Result<(), AllocError>
        ensures { OnOk result (self.new ≡ Direct direct.empty) }
    {
        *self = AnyWorld::Direct(World::new(alloc, &WorldConfig::direct())?);
        Ok(())
    }

    /// Becomes the settings of a world of roles.
    #[inline(never)]
    fn make_settings(&mut self)
        ensures { self.new ≡ Settings roles_config }
    {
        *self = AnyWorld::Settings(Roles::new(WorldConfig::roles()));
    }

    /// Settings become a world of roles that has had all of them.
    #[inline(never)]
    fn make_roles(&mut self, alloc: Global) -> Result<(), AllocError>
        ensures { OnOk result (self.new ≡ seen.begun self.old) }
    {
        if let AnyWorld::Settings(roles) = self {
            *self = AnyWorld::Roles(RolesWorld::new(alloc, roles)?);
        }
        Ok(())
    }

    /// A first line, a setting, and the first line that is no setting make the world other than it
    /// was.
    fn prepare(&mut self, alloc: Global, line: &Line) -> Result<(), AllocError>
        ensures world { OnOk result (self.new ≡ seen.prepared self.old line.now) }
        ensures given { OnOk result (seen.given self.new ≤ seen.given self.old) }
    {
        match (&mut *self, line) {
            (AnyWorld::Before, Line::First { roles: false }) => self.make_direct(alloc)?,
            (AnyWorld::Before, Line::First { roles: true }) => self.make_settings(),
            (AnyWorld::Settings(roles), Line::Set { key, value }) => roles.set(*key, *value),
            (AnyWorld::Settings(_), _) => self.make_roles(alloc)?,
            _ => {}
        }
        Ok(())
    }

    /// Does what a line says, and adds its answers to the report.
    ///
    /// Fails where there is no memory; a front of them may be added then, and nothing else.
    pub fn step(
        &mut self,
        alloc: Global,
        line: &Line,
        report: &mut Report,
    ) -> Result<(), AllocError>
        requires { seen.given self.old < MOST_PDUS }
        ensures world { OnOk result (self.new ≡ (seen.step self.old line.now).0) }
        ensures report { Writes (seen.step self.old line.now).1 result report.old report.new }
        ensures given { OnOk result (seen.given self.new ≤ seen.given self.old + 1) }
    {
        self.prepare(alloc, line)?;
        match self {
            AnyWorld::Before | AnyWorld::Settings(_) => Ok(()),
            AnyWorld::Direct(world) => world.step(alloc, line, report),
            AnyWorld::Roles(world) => world.step(alloc, line, report),
        }
    }

    /// Makes the nodes of a world of roles, where no more settings come, and answers whether it is
    /// one: only such a world settles.
    ///
    /// Fails where there is no memory.
    pub fn begin(&mut self, alloc: Global) -> Result<bool, AllocError>
        ensures world { OnOk result (self.new ≡ seen.begun self.old) }
        ensures answer { IfOk result (λ settles. settles ≡ seen.settles self.old) }
    {
        self.make_roles(alloc)?;
        Ok(matches!(self, AnyWorld::Roles(_)))
    }

    /// Does a round of settling, and adds what it does to the report. A round that adds nothing is
    /// quiet, and ends a settling. Only a world that settles does any.
    ///
    /// Fails where there is no memory; a front of this may be added then, and nothing else.
    pub fn round(&mut self, alloc: Global, report: &mut Report) -> Result<(), AllocError>
        ensures world { OnOk result (self.new ≡ (seen.round self.old).0) }
        ensures report { Writes (seen.round self.old).1 result report.old report.new }
    {
        match self {
            AnyWorld::Roles(world) => world.round(alloc, report),
            _ => Ok(()),
        }
    }

    /// Does up to so many rounds of settling, and adds what they do and what stands behind them to
    /// the report, as a line says it. A direct world doesn't settle.
    ///
    /// Fails where there is no memory; a front of this may be added then, and nothing else.
    pub fn settle(
        &mut self,
        alloc: Global,
        rounds: u32,
        report: &mut Report,
    ) -> Result<(), AllocError>
        requires { seen.given self.old < MOST_PDUS }
        ensures world { OnOk result (self.new ≡ (seen.step self.old (Settle rounds)).0) }
        ensures report { Writes (seen.step self.old (Settle rounds)).1 result
            report.old report.new }
    {
        self.step(alloc, &Line::Settle { rounds }, report)
    }

    /// Tells one node alone something, and answers true; answers false where that node may not be
    /// told it, and in a direct world: then nothing changes but that the nodes were made.
    ///
    /// Fails where there is no memory.
    pub fn half(&mut self, alloc: Global, half: &Half) -> Result<bool, AllocError>
        ensures { IfOk result (λ told. (self.new, told) ≡ seen.half self.old half.now) }
    {
        self.begin(alloc)?;
        match self {
            AnyWorld::Roles(world) => world.half(alloc, half),
            _ => Ok(false),
        }
    }

    /// Adds what stands behind a line's own answers: which nodes closed.
    ///
    /// Fails where there is no memory; a front of this may be added then, and nothing else.
    pub fn end_line(&mut self, report: &mut Report) -> Result<(), AllocError>
        ensures world { OnOk result (self.new ≡ (seen.end_line self.old).0) }
        ensures report { Writes (seen.end_line self.old).1 result report.old report.new }
    {
        match self {
            AnyWorld::Roles(world) => world.tell_closed(report),
            _ => Ok(()),
        }
    }

    /// Adds the last lines of a report. There are none before the first line.
    ///
    /// Fails where there is no memory; a front of these lines may be added then.
    pub fn last(&mut self, alloc: Global, report: &mut Report) -> Result<(), AllocError>
        ensures { Writes (seen.last self.old) result report.old report.new }
    {
        self.begin(alloc)?;
        match self {
            AnyWorld::Before | AnyWorld::Settings(_) => Ok(()),
            AnyWorld::Direct(world) => world.last(report),
            AnyWorld::Roles(world) => world.last(report),
        }
    }
}
