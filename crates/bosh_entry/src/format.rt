/// A way to spell entries.
#[derive(Clone, Copy, Debug, PartialEq, Eq)]
pub enum Format {
    /// It is read, and not written any more.
    Older,
    Present,
}
