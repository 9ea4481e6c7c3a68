//! What an audit tells.

use crate::fault::AuditFault;
use crate::prefixed::Prefixed;

/// What an audit tells.
#[derive(Debug, Drop)]
pub struct Audit {
    /// The streams that are broken, by tag and pipe, and then the tags that stand in no chain.
    pub faults: Vec<AuditFault>,
    /// Towards the server: what came at the server, against what the client put.
    pub up: Prefixed,
    /// Towards the client: what came at the client, against what the server put.
    pub down: Prefixed,
}
