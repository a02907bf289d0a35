//! Events: a node from its beginning to its end.

use crate::plain::Leaf;
use crate::text::Str;

/// One step through a node, in the order of its text. Lists and mappings end by `Close`; each key is followed by its
/// value.
#[derive(Drop)]
pub(crate) enum Event {
    Scalar(Leaf),
    OpenList,
    OpenMap,
    Key { line: u32, key: Str },
    Close,
}
