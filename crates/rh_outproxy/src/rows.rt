//! What the rows of the table share: their conditions, and forwarding.

ghost use Rattle.std.specs.Prelude.{◌≡◌};
ghost use Rattle.rh_outproxy.specs.Rows.{is_first, is_second, same_cookie};

use crate::state::{ClientLeg, OutProxyRole};
use rh_rts::{Cookie, TO_CLIENT};
use rh_shell::{Count, Refused};
use rh_sig::Named;

/// What a row made of what came: it was taken, or why it is refused.
pub(crate) type Row = Result<(), Refused>;

pub(crate) fn is_first(count: Count) -> bool
    ensures { result ≡ is_first count }
{
    count == Count::Zero
}

pub(crate) fn is_second(count: Count) -> bool
    ensures { result ≡ is_second count }
{
    count == Count::One
}

pub(crate) fn same_cookie(one: Cookie, other: Cookie) -> bool
    ensures { result ≡ same_cookie one other }
{
    one.0.as_slice() == other.0.as_slice()
}

impl OutProxyRole {
    ghost use Rattle.std.specs.Prelude.{◌≡◌};
    ghost use Rattle.rh_sig.specs.Values.{MayBeWritten};
    ghost use Rattle.rh_outproxy.specs.Rows as seen;

    /// A packet is to be forwarded to the client; it is dropped where that leg is marked.
    pub(crate) fn forward(&mut self, packet: Named) -> Row
        requires { MayBeWritten packet }
        ensures { (self.new, result) ≡ seen.forwarded self.old packet }
    {
        if self.client == ClientLeg::Marked || self.waiting.forward(packet) {
            Ok(())
        } else {
            Err(Refused::Full { leg: self.co() })
        }
    }

    /// A packet for the client is forwarded as this one, as long as the channel carries any.
    pub(crate) fn pass_on(&mut self, to: u32, packet: Named) -> Row
        requires { MayBeWritten packet }
        ensures { (self.new, result) ≡ seen.passed_on self.old to packet }
    {
        if self.is_carrying() && to == TO_CLIENT {
            self.forward(packet)
        } else {
            Err(Refused::Unexpected)
        }
    }
}
