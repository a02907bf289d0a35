//! Answers cases on rows: what is to be done next, what calls, answers and the ends of updates change, and whole walks.
#![tactic(auto)]

mod calls;
mod changes;
mod given;
mod parts;
mod questions;
mod rows;
mod shown;
mod walks;
mod wants;

pub use calls::Rows;
