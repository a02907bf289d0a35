/// How far the update of an instance has come.
#[derive(Clone, Copy, Debug, PartialEq, Eq)]
pub enum Upd {
    /// It is not begun.
    Todo,
    /// It is in flight.
    Busy,
    Finished,
    /// A call of it failed, so nothing more begins.
    Failed,
}
