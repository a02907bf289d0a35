// How an append is made to fail.

/// How an append is made to fail. The two that stop are told apart from the two that fail by `Rigged::sprung` alone: a
/// caller takes them for a stop of the whole program.
#[derive(Clone, Copy, Debug, PartialEq, Eq)]
pub enum Rig {
    /// The store fails, and the body is lost.
    FailLost,
    /// The store fails, and the body is kept.
    FailKept,
    /// A stop before the body is kept.
    StopBefore,
    /// A stop after the body is kept.
    StopAfter,
}

/// A rig that waits for its append.
#[derive(Clone, Copy)]
pub struct Armed {
    /// How many appends from now on its append is: 1 is the next one, and 0 an append of the past.
    pub appends: u64,
    pub how: Rig,
}
