//! Answers cases on clouds: what they answer to steps, and what is there after them.
#![tactic(auto)]

mod calls;
mod rotting;
mod shown;
mod stand;
mod steps;
mod store;
mod timed;

pub use calls::Clouds;
