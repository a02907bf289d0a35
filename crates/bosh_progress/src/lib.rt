//! How far the items of a phase of work have come: which are left, which of them may be taken up now, and which is the
//! first of these, at the cost of a logarithm.
#![tactic(auto)]

mod place_set;
mod queue;
mod rolling;
mod tree;

pub use place_set::PlaceSet;
pub use queue::Queue;
pub use rolling::{Rolling, least};
