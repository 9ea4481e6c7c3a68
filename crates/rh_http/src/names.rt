//! The names of faults.

ghost use Rattle.std.specs.Prelude.{◌≡◌};
ghost use Rattle.rh_http.specs.Names.{fault_name};

use crate::fault::HttpFault;

impl HttpFault {
    /// The name of the rule that a head breaks.
    pub fn name(&self) -> &'static str
        ensures { result.now ≡ fault_name self.now }
    {
        match self {
            HttpFault::TooLong => "TooLong",
            HttpFault::Syntax => "Syntax",
            HttpFault::Method => "Method",
            HttpFault::Path => "Path",
            HttpFault::Target => "Target",
            HttpFault::Length => "Length",
        }
    }
}
