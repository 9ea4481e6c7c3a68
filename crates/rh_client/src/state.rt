//! What a client keeps.

ghost use Rattle.std.specs.Prelude.{IfOk};
ghost use Rattle.rh_window.specs.Sides.{IsWindow};
ghost use Rattle.rh_client.specs.State.{first};

use crate::channels::{InChannel, OutChannel};
use crate::replacement::Replacement;
use rh_http::ClientConfig;
use rh_line::{RecvLine, SendLine};
use rh_shell::Phase;
use std::alloc::{AllocError, Global};

/// A client as a role of a node: all that it keeps, but for the bytes of its legs.
#[derive(Drop)]
pub struct ClientRole {
    pub(crate) config: ClientConfig,
    pub(crate) phase: Phase,
    /// No PDU will be given any more.
    pub(crate) is_closing: bool,
    /// The PDUs that were given and not put.
    pub(crate) queue: SendLine,
    /// The IN channel on which the client writes.
    pub(crate) writing: InChannel,
    /// The one that is to take its place.
    pub(crate) in_successor: InChannel,
    /// The one whose place it took, until IN_R1/A5 is drawn to its end there.
    pub(crate) leaving: InChannel,
    /// The PDUs that came on the current OUT channel and on its successor, and were not taken.
    pub(crate) line: RecvLine,
    /// The OUT channel from which is taken.
    pub(crate) current: OutChannel,
    /// The one that is to take its place.
    pub(crate) out_successor: OutChannel,
    pub(crate) replacement: Replacement,
}

impl ClientRole {
    ghost use Rattle.std.specs.Prelude.{◌≡◌};

    /// A client before its first leg is up. No other call takes memory.
    ///
    /// Fails only for want of memory.
    pub fn new(alloc: Global, config: ClientConfig) -> Result<ClientRole, AllocError>
        requires { IsWindow config.window }
        ensures { IfOk result (λ role. role ≡ first config) }
    {
        Ok(ClientRole {
            config,
            phase: Phase::Opening,
            is_closing: false,
            queue: SendLine::new(alloc)?,
            writing: InChannel::unopened(1, config.lifetime),
            in_successor: InChannel::unopened(0, config.lifetime),
            leaving: InChannel::unopened(0, config.lifetime),
            line: RecvLine::new(alloc, config.window)?,
            current: OutChannel::unopened(1),
            out_successor: OutChannel::unopened(0),
            replacement: Replacement::NoneUnderWay,
        })
    }
}
