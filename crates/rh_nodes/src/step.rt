//! Each line of a recording, and the last lines of its report.

ghost use Rattle.std.specs.Prelude.{◌≡◌};
ghost use Rattle.rh_text.specs.Writing.{Writes};
ghost use Rattle.rh_company.specs.Company.{rules_of};
ghost use Rattle.rh_nodes.specs.Giving.{deeds_of};
ghost use Rattle.rh_nodes.specs.Opening.{makers_of};
ghost use Rattle.rh_nodes.specs.Reports.{Tells};
ghost use Rattle.rh_nodes.specs.Steps as seen;

use crate::nodes::Nodes;
use rh_company::Cast;
use rh_record::{Answer, Line, Report, Side};
use std::alloc::{AllocError, Global};

impl<K: Cast> Nodes<K> {
    ghost use Rattle.std.specs.Prelude.{IfOk, OnOk};

    /// Does what a line says that has one answer, and answers it; `None` for a line that has none,
    /// and for `settle`, which has many.
    fn answer(&mut self, alloc: Global, line: &Line) -> Result<Option<Answer>, AllocError>
        ensures { IfOk result (λ answer. (self.new, answer) ≡ seen.answer_of
            (rules_of K.Client.rules K.Server.rules K.InProxy.rules K.OutProxy.rules)
            (makers_of K.in_proxy K.out_proxy) (deeds_of K.Client.acts K.Server.acts)
            self.old line.now) }
    {
        Ok(Some(match line {
            Line::Give { side, pdu } => self.give(*side, pdu.as_slice()),
            Line::Take { side } => {
                let answer = self.take(alloc, *side)?;
                Answer::Take {
                    side: *side,
                    answer,
                }
            }
            Line::Close { side } => self.close(*side),
            Line::RecycleIn => self.recycle_in(),
            Line::RecycleOut => self.recycle_out(),
            _ => return self.leg_answer(alloc, line),
        }))
    }

    /// Does what a line says of a leg or of time, and answers it; `None` for another line.
    fn leg_answer(&mut self, alloc: Global, line: &Line) -> Result<Option<Answer>, AllocError>
        ensures { IfOk result (λ answer. (self.new, answer) ≡ seen.leg_answer
            (rules_of K.Client.rules K.Server.rules K.InProxy.rules K.OutProxy.rules)
            (makers_of K.in_proxy K.out_proxy) self.old line.now) }
    {
        Ok(Some(match line {
            Line::Send {
                leg: Some(leg),
                dir,
                count,
            } => {
                let count = self.send(alloc, *leg, *dir, *count)?;
                Answer::Send {
                    leg: Some(*leg),
                    dir: *dir,
                    count,
                }
            }
            Line::Move {
                leg: Some(leg),
                dir,
                count,
            } => {
                let bytes = self.feed(alloc, *leg, *dir, *count)?;
                Answer::Move {
                    leg: Some(*leg),
                    dir: *dir,
                    bytes,
                }
            }
            Line::OpenLeg { leg } => {
                let ok = self.open(alloc, *leg)?;
                Answer::OpenLeg { leg: *leg, ok }
            }
            Line::OpenSame { leg } => {
                let ok = self.open_same(*leg)?;
                Answer::OpenSame { leg: *leg, ok }
            }
            _ => return self.ending_answer(line),
        }))
    }

    /// Does what a line says by which a leg is lost or time passes, and answers it; `None` for
    /// another line.
    fn ending_answer(&mut self, line: &Line) -> Result<Option<Answer>, AllocError>
        ensures { IfOk result (λ answer. (self.new, answer) ≡ seen.ending_answer
            (rules_of K.Client.rules K.Server.rules K.InProxy.rules K.OutProxy.rules)
            self.old line.now) }
    {
        Ok(Some(match line {
            Line::BreakLeg { leg } => {
                let ok = self.break_leg(*leg)?;
                Answer::BreakLeg { leg: *leg, ok }
            }
            Line::EndLeg { leg, dir } => {
                let ok = self.end_leg(*leg, *dir)?;
                Answer::EndLeg {
                    leg: *leg,
                    dir: *dir,
                    ok,
                }
            }
            Line::Tick { now } => {
                let ok = self.tick(*now)?;
                Answer::Tick { now: *now, ok }
            }
            _ => return Ok(None),
        }))
    }

    /// Does what a line says, and adds its answers to the report, without those of the nodes that
    /// it closed.
    fn step_line(
        &mut self,
        alloc: Global,
        line: &Line,
        report: &mut Report,
    ) -> Result<(), AllocError>
        ensures { Tells (seen.step_line
            (rules_of K.Client.rules K.Server.rules K.InProxy.rules K.OutProxy.rules)
            (makers_of K.in_proxy K.out_proxy) (deeds_of K.Client.acts K.Server.acts)
            line.now self.old) result self.new report.old report.new }
    {
        if let Line::Settle { rounds } = line {
            return self.settle(alloc, *rounds, report);
        }
        match self.answer(alloc, line)? {
            Some(answer) => report.push(answer),
            None => Ok(()),
        }
    }

    /// Adds a line for each node that closed since the last line, in the order in which nodes are
    /// told the moment.
    ///
    /// Fails where there is no memory; a front of these lines may be added then.
    pub fn tell_closed(&mut self, report: &mut Report) -> Result<(), AllocError>
        ensures { Tells (seen.tell_closed self.old) result self.new report.old report.new }
    {
        self.closed.tell(report)?;
        self.closed.clear();
        Ok(())
    }

    /// Does what a line says, and adds its answers to the report, with those of the nodes that it
    /// closed behind them. A first line, a setting and a line of another world do nothing.
    ///
    /// Fails where there is no memory; a front of what was to be added may be added then.
    pub fn step(
        &mut self,
        alloc: Global,
        line: &Line,
        report: &mut Report,
    ) -> Result<(), AllocError>
        ensures { Tells (seen.step
            (rules_of K.Client.rules K.Server.rules K.InProxy.rules K.OutProxy.rules)
            (makers_of K.in_proxy K.out_proxy) (deeds_of K.Client.acts K.Server.acts)
            line.now self.old) result self.new report.old report.new }
    {
        self.step_line(alloc, line, report)?;
        self.tell_closed(report)
    }

    /// What an end is when the recording is over.
    fn last_of(&self, side: Side) -> Answer
        ensures { result ≡ seen.last_of
            (rules_of K.Client.rules K.Server.rules K.InProxy.rules K.OutProxy.rules)
            (deeds_of K.Client.acts K.Server.acts) self.entry.now side }
    {
        let (state, (inbound, outbound)) = match side {
            Side::Client => (self.company.client.state(), self.company.client.channels()),
            Side::Server => (self.company.server.state(), self.company.server.channels()),
        };
        Answer::Last {
            side,
            state,
            inbound,
            outbound,
        }
    }

    /// Adds the last lines of a report: how many PDUs went in each direction, and what the ends
    /// are.
    ///
    /// Fails where there is no memory; a front of these lines may be added then.
    pub fn last(&self, report: &mut Report) -> Result<(), AllocError>
        ensures { Writes (seen.last
            (rules_of K.Client.rules K.Server.rules K.InProxy.rules K.OutProxy.rules)
            (deeds_of K.Client.acts K.Server.acts) self.entry.now)
            result report.old report.new }
    {
        report.push(Answer::Up {
            given: self.up.given,
            taken: self.up.taken,
        })?;
        report.push(Answer::Down {
            given: self.down.given,
            taken: self.down.taken,
        })?;
        report.push(self.last_of(Side::Client))?;
        report.push(self.last_of(Side::Server))
    }
}
