//! The line that lets all that can go on do so, in rounds.

ghost use Rattle.std.specs.Prelude.{◌≡◌, ◌≤◌, ◌<◌, ◌^◌, IfOk, OnOk, IsTrue, length};
ghost use Rattle.rh_company.specs.Company.{rules_of};
ghost use Rattle.rh_nodes.specs.Giving.{deeds_of};
ghost use Rattle.rh_nodes.specs.Opening.{makers_of};
ghost use Rattle.rh_nodes.specs.Reports.{Tells};
ghost use Rattle.rh_nodes.specs.Settling as seen;

use crate::nodes::Nodes;
use rh_company::Cast;
use rh_line::{LAST_NUMBER, Leg, LegKind};
use rh_record::{Answer, Dir, Report, Side, TakeAnswer};
use rh_text::Bytes;
use rh_wires::sender;
use std::alloc::{AllocError, Global};

// What is done to a leg, here and where bytes are carried, is inlined into the loops over the legs
// of a kind: in each of them the nodes at a leg's ends are known.

/// How many bytes a round carries at most on a leg in a direction. What a line may tell of bytes is
/// bounded by a number of its own.
pub const MOST_BYTES: u32 = 65_536;

impl<K: Cast> Nodes<K> {
    // ---- part 1: legs are opened

    /// Opens a leg to a proxy of its own, or to that of its predecessor where that is asked for and
    /// it may have it up; reported where it did.
    fn open_next_in(
        &mut self,
        alloc: Global,
        leg: Leg,
        report: &mut Report,
    ) -> Result<(), AllocError>
        ensures { Tells (seen.open_next_in
            (rules_of K.Client.rules K.Server.rules K.InProxy.rules K.OutProxy.rules)
            (makers_of K.in_proxy K.out_proxy) leg self.old)
            result self.new report.old report.new }
    {
        if self.same && self.may_open_same(leg) {
            if self.open_same(leg)? {
                report.push(Answer::OpenSame { leg, ok: true })?;
            }
            return Ok(());
        }
        self.open_next(alloc, leg, report)
    }

    /// Opens a leg, and reports it where it did.
    fn open_next(&mut self, alloc: Global, leg: Leg, report: &mut Report) -> Result<(), AllocError>
        ensures { Tells (seen.open_next
            (rules_of K.Client.rules K.Server.rules K.InProxy.rules K.OutProxy.rules)
            (makers_of K.in_proxy K.out_proxy) leg self.old)
            result self.new report.old report.new }
    {
        if self.open(alloc, leg)? {
            report.push(Answer::OpenLeg { leg, ok: true })?;
        }
        Ok(())
    }

    /// Opens the client's next OUT leg.
    fn open_client_outs(&mut self, alloc: Global, report: &mut Report) -> Result<(), AllocError>
        ensures { Tells (seen.open_client_outs
            (rules_of K.Client.rules K.Server.rules K.InProxy.rules K.OutProxy.rules)
            (makers_of K.in_proxy K.out_proxy) self.old)
            result self.new report.old report.new }
    {
        let number = self.legs.len(LegKind::ClientOut).max(1);
        if number > u64::from(LAST_NUMBER) {
            return Ok(());
        }
        let leg = Leg {
            kind: LegKind::ClientOut,
            number: number as u32,
        };
        self.open_next(alloc, leg, report)
    }

    /// Opens the client's next IN leg.
    fn open_client_ins(&mut self, alloc: Global, report: &mut Report) -> Result<(), AllocError>
        ensures { Tells (seen.open_client_ins
            (rules_of K.Client.rules K.Server.rules K.InProxy.rules K.OutProxy.rules)
            (makers_of K.in_proxy K.out_proxy) self.old)
            result self.new report.old report.new }
    {
        let number = self.legs.len(LegKind::ClientIn).max(1);
        if number > u64::from(LAST_NUMBER) {
            return Ok(());
        }
        let leg = Leg {
            kind: LegKind::ClientIn,
            number: number as u32,
        };
        self.open_next_in(alloc, leg, report)
    }

    /// Opens the server legs of out proxies.
    fn open_out_servers(&mut self, alloc: Global, report: &mut Report) -> Result<(), AllocError>
        ensures { Tells (seen.open_out_servers
            (rules_of K.Client.rules K.Server.rules K.InProxy.rules K.OutProxy.rules)
            (makers_of K.in_proxy K.out_proxy) self.old)
            result self.new report.old report.new }
    {
        let first = self.company.outs.first();
        let len = self.company.outs.len();
        'legs: for number in first..len {
            let leg = Leg {
                kind: LegKind::OutServer,
                number: number as u32,
            };
            self.open_next(alloc, leg, report)?;
        }
        Ok(())
    }

    /// Opens the server legs of in proxies.
    fn open_in_servers(&mut self, alloc: Global, report: &mut Report) -> Result<(), AllocError>
        ensures { Tells (seen.open_in_servers
            (rules_of K.Client.rules K.Server.rules K.InProxy.rules K.OutProxy.rules)
            (makers_of K.in_proxy K.out_proxy) self.old)
            result self.new report.old report.new }
    {
        let first = self.company.ins.first();
        let len = self.company.ins.len();
        'legs: for number in first..len {
            let leg = Leg {
                kind: LegKind::InServer,
                number: number as u32,
            };
            self.open_next(alloc, leg, report)?;
        }
        Ok(())
    }

    /// Opens each leg that can be opened, in the order of legs.
    fn open_all(&mut self, alloc: Global, report: &mut Report) -> Result<(), AllocError>
        ensures { Tells (seen.open_all
            (rules_of K.Client.rules K.Server.rules K.InProxy.rules K.OutProxy.rules)
            (makers_of K.in_proxy K.out_proxy) self.old)
            result self.new report.old report.new }
    {
        self.open_client_outs(alloc, report)?;
        self.open_out_servers(alloc, report)?;
        self.open_client_ins(alloc, report)?;
        self.open_in_servers(alloc, report)
    }

    // ---- part 2: bytes are carried

    /// Draws and feeds what a leg carries in a direction, and answers the bytes that were fed;
    /// `None` where none were.
    #[inline(always)]
    fn carry_bytes(
        &mut self,
        alloc: Global,
        leg: Leg,
        dir: Dir,
    ) -> Result<Option<Bytes>, AllocError>
        ensures { IfOk result (λ fed. seen.carried leg dir (self.new, fed) ≡ seen.carry
            (rules_of K.Client.rules K.Server.rules K.InProxy.rules K.OutProxy.rules)
            leg dir self.old) }
    {
        self.send(alloc, leg, dir, MOST_BYTES)?;
        // A node that is fed no bytes stays as it is.
        if self.legs.is_clear(leg, dir) {
            return Ok(None);
        }
        self.feed(alloc, leg, dir, MOST_BYTES)
    }

    /// Draws and feeds what a leg carries in a direction; reported where bytes were fed.
    #[inline(always)]
    fn carry(
        &mut self,
        alloc: Global,
        leg: Leg,
        dir: Dir,
        report: &mut Report,
    ) -> Result<(), AllocError>
        ensures { Tells (seen.carry
            (rules_of K.Client.rules K.Server.rules K.InProxy.rules K.OutProxy.rules)
            leg dir self.old) result self.new report.old report.new }
    {
        let Some(bytes) = self.carry_bytes(alloc, leg, dir)? else {
            return Ok(());
        };
        if bytes.len() > 0 {
            report.push(Answer::Move {
                leg: Some(leg),
                dir,
                bytes: Some(bytes),
            })?;
        }
        Ok(())
    }

    /// Carries both ways on a leg.
    #[inline(always)]
    fn carry_both(&mut self, alloc: Global, leg: Leg, report: &mut Report) -> Result<(), AllocError>
        ensures { Tells (seen.carry_both
            (rules_of K.Client.rules K.Server.rules K.InProxy.rules K.OutProxy.rules)
            leg self.old) result self.new report.old report.new }
    {
        self.carry(alloc, leg, Dir::U, report)?;
        self.carry(alloc, leg, Dir::D, report)
    }

    /// Carries on the legs of a kind.
    #[inline(always)]
    fn carry_kind(
        &mut self,
        alloc: Global,
        kind: LegKind,
        report: &mut Report,
    ) -> Result<(), AllocError>
        ensures { Tells (seen.carry_kind
            (rules_of K.Client.rules K.Server.rules K.InProxy.rules K.OutProxy.rules)
            kind self.old) result self.new report.old report.new }
    {
        let first = self.legs.first(kind);
        let len = self.legs.len(kind);
        'legs: for number in first..len {
            let leg = Leg {
                kind,
                number: number as u32,
            };
            self.carry_both(alloc, leg, report)?;
        }
        Ok(())
    }

    /// Carries on all legs, in their order.
    fn carry_all(&mut self, alloc: Global, report: &mut Report) -> Result<(), AllocError>
        ensures { Tells (seen.carry_all
            (rules_of K.Client.rules K.Server.rules K.InProxy.rules K.OutProxy.rules)
            self.old) result self.new report.old report.new }
    {
        self.carry_kind(alloc, LegKind::ClientOut, report)?;
        self.carry_kind(alloc, LegKind::OutServer, report)?;
        self.carry_kind(alloc, LegKind::ClientIn, report)?;
        self.carry_kind(alloc, LegKind::InServer, report)
    }

    // ---- part 3: PDUs are taken

    /// Takes a PDU at an end; reported where one was there, and where it is Ended for the first
    /// time.
    fn take_one(&mut self, alloc: Global, side: Side, report: &mut Report) -> Result<(), AllocError>
        ensures { Tells (seen.take_one (deeds_of K.Client.acts K.Server.acts) side self.old)
            result self.new report.old report.new }
    {
        let ended = self.has_ended(side);
        let answer = self.take(alloc, side)?;
        let is_new = match &answer {
            TakeAnswer::Pdu(_) => true,
            TakeAnswer::Ended => !ended,
            TakeAnswer::Empty | TakeAnswer::Closed(_) => false,
        };
        if is_new {
            report.push(Answer::Take { side, answer })?;
        }
        Ok(())
    }

    /// Takes a PDU at each end.
    fn take_both(&mut self, alloc: Global, report: &mut Report) -> Result<(), AllocError>
        ensures { Tells (seen.take_both (deeds_of K.Client.acts K.Server.acts) self.old)
            result self.new report.old report.new }
    {
        self.take_one(alloc, Side::Client, report)?;
        self.take_one(alloc, Side::Server, report)
    }

    // ---- part 4: legs end

    /// The direction in which a leg is ended, where the end that puts there has it finished and
    /// nothing is in flight.
    #[inline(always)]
    fn ends_now(&self, leg: Leg) -> Option<Dir>
        ensures { result ≡ seen.ends_now
            (rules_of K.Client.rules K.Server.rules K.InProxy.rules K.OutProxy.rules)
            leg self.entry.now }
    {
        if !self.is_up(leg) {
            None
        } else if self.is_finished(leg, Dir::U) {
            Some(Dir::U)
        } else if self.is_finished(leg, Dir::D) {
            Some(Dir::D)
        } else {
            None
        }
    }

    /// Whether the end that puts what goes in this direction has the leg finished, and nothing is
    /// in flight there.
    #[inline(always)]
    fn is_finished(&self, leg: Leg, dir: Dir) -> bool
        ensures { result ≡ seen.is_finished
            (rules_of K.Client.rules K.Server.rules K.InProxy.rules K.OutProxy.rules)
            leg dir self.entry.now }
    {
        self.company.finished(self.at(leg, sender(dir)), leg) && self.legs.is_clear(leg, dir)
    }

    /// Ends a leg that is finished, and reports it.
    #[inline(always)]
    fn end_one(&mut self, leg: Leg, report: &mut Report) -> Result<(), AllocError>
        ensures { Tells (seen.end_one
            (rules_of K.Client.rules K.Server.rules K.InProxy.rules K.OutProxy.rules)
            leg self.old) result self.new report.old report.new }
    {
        let Some(dir) = self.ends_now(leg) else {
            return Ok(());
        };
        let ok = self.end_leg(leg, dir)?;
        report.push(Answer::EndLeg { leg, dir, ok })
    }

    /// Ends the finished legs of a kind.
    #[inline(always)]
    fn end_kind(&mut self, kind: LegKind, report: &mut Report) -> Result<(), AllocError>
        ensures { Tells (seen.end_kind
            (rules_of K.Client.rules K.Server.rules K.InProxy.rules K.OutProxy.rules)
            kind self.old) result self.new report.old report.new }
    {
        let first = self.legs.first(kind);
        let len = self.legs.len(kind);
        'legs: for number in first..len {
            let leg = Leg {
                kind,
                number: number as u32,
            };
            self.end_one(leg, report)?;
        }
        Ok(())
    }

    /// Ends the finished legs, in their order.
    fn end_all(&mut self, report: &mut Report) -> Result<(), AllocError>
        ensures { Tells (seen.end_all
            (rules_of K.Client.rules K.Server.rules K.InProxy.rules K.OutProxy.rules)
            self.old) result self.new report.old report.new }
    {
        self.end_kind(LegKind::ClientOut, report)?;
        self.end_kind(LegKind::OutServer, report)?;
        self.end_kind(LegKind::ClientIn, report)?;
        self.end_kind(LegKind::InServer, report)
    }

    // ---- rounds

    /// Does a round: opens legs, carries bytes, takes PDUs and ends legs, and reports each. A round
    /// that reports nothing is quiet, and ends a settling.
    ///
    /// Fails where there is no memory; a front of the round's report may be added then.
    pub fn round(&mut self, alloc: Global, report: &mut Report) -> Result<(), AllocError>
        ensures { Tells (seen.round
            (rules_of K.Client.rules K.Server.rules K.InProxy.rules K.OutProxy.rules)
            (makers_of K.in_proxy K.out_proxy) (deeds_of K.Client.acts K.Server.acts) self.old)
            result self.new report.old report.new }
    {
        self.open_all(alloc, report)?;
        self.carry_all(alloc, report)?;
        self.take_both(alloc, report)?;
        self.end_all(report)
    }

    /// Does rounds up to the first quiet one, which isn't counted, and so many at most; reports
    /// what they do, and how many they were.
    pub(crate) fn settle(
        &mut self,
        alloc: Global,
        rounds: u32,
        report: &mut Report,
    ) -> Result<(), AllocError>
        ensures { Tells (seen.settle
            (rules_of K.Client.rules K.Server.rules K.InProxy.rules K.OutProxy.rules)
            (makers_of K.in_proxy K.out_proxy) (deeds_of K.Client.acts K.Server.acts)
            rounds self.old) result self.new report.old report.new }
    {
        'rounds: for count in 0..rounds {
            let before = report.answers().len();
            self.round(alloc, report)?;
            if report.answers().len() == before {
                return report.push(Answer::Quiet(count));
            }
        }
        report.push(Answer::Spent(rounds))
    }
}
