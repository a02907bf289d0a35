use crate::Permit;

/// What a worker that claims work of a task is given.
pub enum Claim {
    /// A call to make.
    Work(Permit),
    /// Nothing now: what is left waits for calls that are open.
    Wait,
    /// Nothing is left.
    Over,
}
