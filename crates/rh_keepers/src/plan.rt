//! Where nodes listen, and which proxies they use.

ghost use Rattle.std.specs.Prelude.{◌≡◌, IfOk};
ghost use Rattle.rh_keepers.specs.Plans.{address_at};

use rh_io::NoMemory;
use rh_net::Address;
use std::alloc::Global;

/// Where a node listens, and where the proxies of a client are.
#[derive(Drop)]
pub struct Plan {
    /// The address to listen at. A client has none.
    pub at: Option<Address>,
    /// The in proxies of a client: channel n uses the one at `(n - 1)` modulo their number.
    pub ins: Vec<Address>,
    /// Its out proxies, likewise.
    pub outs: Vec<Address>,
}

impl Plan {
    /// The same plan. Fails where there is no memory.
    pub fn copy(&self, alloc: Global) -> Result<Plan, NoMemory>
        ensures { IfOk result (λ plan. (plan.at ≡ self.now.at)
            × (plan.ins.items ≡ self.now.ins.items) × (plan.outs.items ≡ self.now.outs.items)) }
    {
        Ok(Plan {
            at: self.at,
            ins: Vec::from_slice(alloc, &self.ins)?,
            outs: Vec::from_slice(alloc, &self.outs)?,
        })
    }
}

/// The address of the channel of this number, from 1; `None` where there is no address.
pub(crate) fn address_of(addresses: &[Address], number: u32) -> Option<Address>
    ensures { result ≡ address_at addresses.now number }
{
    let count = addresses.len();
    if count == 0 {
        return None;
    }
    let at = number.saturating_sub(1) as usize % count;
    addresses.get(at).copied()
}
