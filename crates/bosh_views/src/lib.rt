//! What is told of all that is recorded: to the maker of a goal, and as one entry that stands for all before it.
#![tactic(auto)]

mod snapshots;
mod views;

pub use snapshots::snapshot;
pub use views::view;
