//! Answers cases on lines: what they ask for, in words.
#![tactic(auto)]

mod calls;
mod shown;

pub use calls::Lines;
