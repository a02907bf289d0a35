//! Answers cases on entries: bodies that are read, and what was read copied and written again.
#![tactic(auto)]

mod bodies;
mod calls;
mod entries;
mod kinds;
mod part;

pub use calls::Entries;
