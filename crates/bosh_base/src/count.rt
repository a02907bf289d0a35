/// A number of instances, or a share of a group.
#[derive(Clone, Copy, Debug, PartialEq, Eq)]
pub enum Count {
    Whole(u32),
    /// 0 to 100.
    Percent(u32),
}
