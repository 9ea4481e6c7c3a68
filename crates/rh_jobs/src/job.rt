//! Work to be done once.

/// Work that is done once, and answers.
///
/// What a spawner needs of a job to hand it to a thread (`Send`, `'static`) is asked where jobs are
/// handed over, and not here.
pub trait Job {
    type Out;

    /// What it may answer.
    ghost answers: { Self → Self.Out → Type 0 };

    /// Does the work. It may wait, and need not return.
    fn run(self) -> Self::Out
        ensures { answers self result };
}
