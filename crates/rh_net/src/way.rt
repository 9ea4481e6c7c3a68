//! Ways to legs: what waits for a leg, beside the books of its net.

ghost use Rattle.std.specs.Prelude.{◌≡◌, Some};

use crate::address::Address;

/// How legs come. A way may wait, and no lock need be held meanwhile.
pub trait Way {
    /// A leg, or why there is none, for the net that the way is of.
    type Came;

    /// Makes a leg to an address.
    fn connect(&mut self, to: &Address) -> Self::Came;

    /// Waits a moment for the next leg of those who connect to where the net listened when it gave
    /// this way; `None` where nobody came.
    fn accept(&mut self) -> Option<Self::Came>;
}

/// A call for a leg, as a way in memory tells it to its net.
#[derive(Clone, Copy)]
pub enum NetCall {
    /// A leg to an address.
    Connect(Address),
    /// The next leg of those who connect.
    Accept,
}

/// The way of a net in memory. It tells its net which call it was, and doesn't wait.
#[derive(Clone, Copy)]
pub struct MemWay;

impl Way for MemWay {
    type Came = NetCall;

    fn connect(&mut self, to: &Address) -> NetCall
        ensures { result ≡ NetCall.Connect to.now }
    {
        NetCall::Connect(*to)
    }

    fn accept(&mut self) -> Option<NetCall>
        ensures { result ≡ Some NetCall.Accept }
    {
        Some(NetCall::Accept)
    }
}
