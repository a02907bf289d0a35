use bosh_base::Cause;

/// What becomes of the tasks that have no end after a run.
#[derive(Clone, Copy)]
pub enum Left {
    /// There are none.
    Nothing,
    /// The director stopped at them.
    Halted(Cause),
    /// No further entry or call had a place.
    Full,
    /// What is left of this task waits for calls of others.
    Waits(u64),
}
