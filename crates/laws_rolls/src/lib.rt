//! The rule by which updates are shown to begin is the rule by which they do.
#![tactic(auto)]

mod rolls;

pub use rolls::{groups_run_as_they_stand, the_rule_that_runs_is_the_one_that_is_shown};
