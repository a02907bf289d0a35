//! The facts of rows and of what was done to the cloud, and where they begin.
#![tactic(auto)]

mod start;

pub use start::{nothing_was_done, what_meets_the_tests_has_the_facts};
