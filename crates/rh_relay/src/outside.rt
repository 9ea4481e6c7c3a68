//! The outside of a run.

/// The outside of a run. It goes in by value, and comes back in the answer.
#[derive(Drop)]
pub struct Outside<S: Drop, W: Drop, N: Drop, C: Drop, K: Drop> {
    /// Where an end's PDUs come from.
    pub input: S,
    /// Where the PDUs go that an end takes.
    pub output: W,
    /// Where legs come from.
    pub net: N,
    /// What tells the moment.
    pub clock: C,
    /// What makes the cookies of a client's channels.
    pub cookies: K,
}
