//! The line that says the moment.

ghost use Rattle.std.specs.Prelude.{◌≡◌, IfOk, OnOk};
ghost use Rattle.rh_company.specs.Company.{rules_of};
ghost use Rattle.rh_nodes.specs.Time as seen;

use crate::nodes::Nodes;
use rh_company::{Cast, Event};
use rh_record::Who;
use std::alloc::AllocError;

impl<K: Cast> Nodes<K> {
    /// Tells the in proxies the moment, the lower number first.
    fn tick_ins(&mut self, event: &Event) -> Result<(), AllocError>
        ensures { OnOk result (self.new ≡ seen.tick_ins
            (rules_of K.Client.rules K.Server.rules K.InProxy.rules K.OutProxy.rules)
            event.now self.old) }
    {
        let first = self.company.ins.first();
        let len = self.company.ins.len();
        'ins: for number in first..len {
            self.tell(Who::In(number as u32), event)?;
        }
        Ok(())
    }

    /// Tells the out proxies the moment, the lower number first.
    fn tick_outs(&mut self, event: &Event) -> Result<(), AllocError>
        ensures { OnOk result (self.new ≡ seen.tick_outs
            (rules_of K.Client.rules K.Server.rules K.InProxy.rules K.OutProxy.rules)
            event.now self.old) }
    {
        let first = self.company.outs.first();
        let len = self.company.outs.len();
        'outs: for number in first..len {
            self.tell(Who::Out(number as u32), event)?;
        }
        Ok(())
    }

    /// Tells all nodes the moment, in milliseconds, where it isn't below the last one. Answers
    /// whether it wasn't.
    pub(crate) fn tick(&mut self, now: u64) -> Result<bool, AllocError>
        ensures { IfOk result (λ ok. (self.new, ok) ≡ seen.tick
            (rules_of K.Client.rules K.Server.rules K.InProxy.rules K.OutProxy.rules)
            self.old now) }
    {
        if now < self.now {
            return Ok(false);
        }
        self.now = now;
        let event = Event::Passes(now);
        self.tell(Who::Client, &event)?;
        self.tell(Who::Server, &event)?;
        self.tick_ins(&event)?;
        self.tick_outs(&event)?;
        Ok(true)
    }
}
