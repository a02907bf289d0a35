//! Answers cases on child programs: requests and replies as texts, and calls on a port over outputs that are given.
#![tactic(auto)]

mod asked;
mod calls;
mod shown;

pub use calls::Children;
