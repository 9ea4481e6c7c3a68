//! Makes a recording of roles, a line at a time, and sums up what it is answered.

ghost use Rattle.std.specs.Prelude.{◌≡◌, [], ◌∷◌, true, IfOk, OnOk};
ghost use Rattle.rh_made.specs.Making as lines;
ghost use Rattle.rh_generate.specs.Summaries.{summary, summary_of};

use rh_made::{MakeCount, ROUNDS, Summary, Tally, giver, pdu, settles};
use rh_record::{Line, Report, Side};
use rh_world::AnyWorld;
use std::alloc::{AllocError, Global};
use std::marker::Model;

/// The world of the lines so far, and what they were answered comes to.
#[derive(Drop)]
struct Making {
    world: AnyWorld,
    tally: Tally,
    /// What one line is answered.
    report: Report,
}

impl Model for Making {
    ghost use Rattle.rh_generate.specs.Steps as seen;

    ghost Value = { seen.Made };

    ghost view = { λ a. record { world = a.world; tally = a.tally } };
}

impl Making {
    ghost use Rattle.rh_record.specs.declared.line.Line.TheVariants.{First};
    ghost use Rattle.rh_generate.specs.Steps.{IsOfRoles, do_all, does, made_by};

    /// The first line was done.
    #[tactic(auto, unfolding(crate::specs::Steps::made_by))]
    fn new(alloc: Global) -> Result<Making, AllocError>
        ensures done { IfOk result (λ making. making ≡ made_by (First true ∷ [])) }
        ensures of_roles { IfOk result (λ making. IsOfRoles making.world) }
    {
        let mut world = AnyWorld::Before;
        let mut report = Report::new(alloc);
        world.step(alloc, &Line::First { roles: true }, &mut report)?;
        Ok(Making {
            world,
            tally: Tally::none(),
            report,
        })
    }

    /// Does a line.
    #[tactic(auto, using(crate::proofs::Steps::none_given, crate::proofs::Steps::stays_roles))]
    fn line(&mut self, alloc: Global, line: &Line) -> Result<(), AllocError>
        requires { IsOfRoles self.old.world }
        ensures done { OnOk result (self.new ≡ does self.old line.now) }
        ensures of_roles { OnOk result (IsOfRoles self.new.world) }
    {
        self.report.clear();
        self.world.step(alloc, line, &mut self.report)?;
        self.tally.add(self.report.answers());
        Ok(())
    }

    /// Lets all that can go on do so.
    fn settle(&mut self, alloc: Global) -> Result<(), AllocError>
        requires { IsOfRoles self.old.world }
        ensures done { OnOk result (self.new ≡ does self.old lines.settle) }
        ensures of_roles { OnOk result (IsOfRoles self.new.world) }
    {
        self.line(alloc, &Line::Settle { rounds: ROUNDS })
    }

    /// Gives a PDU, and lets all settle behind it where it is time for that.
    fn turn(&mut self, alloc: Global, count: u32, number: u32) -> Result<(), AllocError>
        requires { IsOfRoles self.old.world }
        ensures done { OnOk result (self.new ≡ do_all self.old (lines.turn count number)) }
        ensures of_roles { OnOk result (IsOfRoles self.new.world) }
    {
        let side = giver(number);
        let pdu = pdu(alloc, number)?;
        self.line(alloc, &Line::Give { side, pdu })?;
        if settles(count, number) {
            self.settle(alloc)?;
        }
        Ok(())
    }

    /// Closes both ends, and lets all settle.
    fn end(&mut self, alloc: Global) -> Result<(), AllocError>
        requires { IsOfRoles self.old.world }
        ensures { OnOk result (self.new ≡ do_all self.old lines.ending) }
    {
        self.line(alloc, &Line::Close { side: Side::Client })?;
        self.line(alloc, &Line::Close { side: Side::Server })?;
        self.settle(alloc)
    }

    /// What the lines so far come to, as if they were all.
    fn summary(&mut self, alloc: Global) -> Result<Summary, AllocError>
        ensures { IfOk result (λ made. made ≡ summary_of self.old) }
    {
        let mut last = Report::new(alloc);
        self.world.last(alloc, &mut last)?;
        Ok(Summary {
            last,
            moved: self.tally.moved,
            rounds: self.tally.rounds,
        })
    }
}

/// Generates a recording of so many PDUs and runs it, and sums up its report. What no more than one
/// line was answered is held at a time.
///
/// Fails where there is no memory.
pub fn make(alloc: Global, count: MakeCount) -> Result<Summary, AllocError>
    ensures { IfOk result (λ made. made ≡ summary count) }
{
    let count = count.get();
    let mut making = Making::new(alloc)?;
    for before in 0..count {
        making.turn(alloc, count, before + 1)?;
    }
    making.end(alloc)?;
    making.summary(alloc)
}
