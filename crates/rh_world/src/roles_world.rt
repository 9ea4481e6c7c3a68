//! The world of the real roles.

ghost use Rattle.std.specs.Prelude.{◌≡◌, IfOk};
ghost use Rattle.rh_text.specs.Writing.{Writes};
ghost use Rattle.rh_nodes.specs.Reports.{Tells};
ghost use Rattle.rh_world.specs.Roles as seen;

use crate::roles::Roles;
use rh_nodes::{Half, Nodes};
use rh_record::{Line, Report};
use std::alloc::{AllocError, Global};
use std::marker::Model;

/// A client, a server and their proxies, with the legs between them. After want of memory it may
/// only be dropped.
#[derive(Drop)]
pub struct RolesWorld {
    nodes: Box<Nodes<Roles>>,
}

impl Model for RolesWorld {
    ghost use Rattle.rh_world.specs.Roles as seen;

    ghost Value = { seen.World };

    ghost view = { λ a. a.nodes.value };
}

impl RolesWorld {
    /// A world with no legs. Fails where there is no memory.
    pub fn new(alloc: Global, roles: &Roles) -> Result<RolesWorld, AllocError>
        ensures { IfOk result (λ world. world ≡ seen.begun roles.now) }
    {
        let config = roles.config();
        let nodes = Nodes::new(alloc, Roles::new(config), 0, config.same)?;
        Ok(RolesWorld {
            nodes: Box::new(alloc, nodes)?,
        })
    }

    /// Does what a line says, and adds its answers to the report.
    ///
    /// Fails where there is no memory.
    pub fn step(
        &mut self,
        alloc: Global,
        line: &Line,
        report: &mut Report,
    ) -> Result<(), AllocError>
        ensures { Tells (seen.step line.now self.old) result self.new report.old report.new }
    {
        self.nodes.step(alloc, line, report)
    }

    /// Does a round of settling, and adds what it does to the report. A round that adds nothing is
    /// quiet, and ends a settling.
    ///
    /// Fails where there is no memory.
    pub fn round(&mut self, alloc: Global, report: &mut Report) -> Result<(), AllocError>
        ensures { Tells (seen.round self.old) result self.new report.old report.new }
    {
        self.nodes.round(alloc, report)
    }

    /// Adds a line for each node that closed since the last line.
    ///
    /// Fails where there is no memory.
    pub fn tell_closed(&mut self, report: &mut Report) -> Result<(), AllocError>
        ensures { Tells (seen.tell_closed self.old) result self.new report.old report.new }
    {
        self.nodes.tell_closed(report)
    }

    /// Tells one node alone something, and answers true; answers false, and changes nothing, where
    /// that node may not be told it. No line of a report tells of a node that this closes.
    ///
    /// Fails where there is no memory.
    pub fn half(&mut self, alloc: Global, half: &Half) -> Result<bool, AllocError>
        ensures { IfOk result (λ told. (self.new, told) ≡ seen.half self.old half.now) }
    {
        self.nodes.half(alloc, half)
    }

    /// Adds the last lines of a report.
    ///
    /// Fails where there is no memory; a front of these lines may be added then.
    pub fn last(&self, report: &mut Report) -> Result<(), AllocError>
        ensures { Writes (seen.last self.now) result report.old report.new }
    {
        self.nodes.last(report)
    }
}
