//! Whether a leg goes on.

/// Whether the other side ended or broke a leg, where the role goes on.
#[derive(Clone, Copy)]
pub enum Standing {
    Up,
    /// It did: nothing is taken or drawn there any more.
    Marked,
}
