use bosh_base::Reply;

/// What came of a command that is to open a task.
#[derive(Drop)]
pub enum Opened {
    /// The task of this number is open.
    Task(u64),
    Refused(Reply),
}
