//! Goals in words: a line for each instance, each part of its spec, each group, each package to compile, each machine that
//! compiles, each tie and each offer.
#![tactic(auto)]

mod goals;
mod links;
mod rows;

pub use goals::GoalTold;
