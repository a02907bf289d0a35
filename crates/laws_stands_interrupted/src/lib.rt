//! What is recorded goes on to stand for what the entries tell: tasks that failed, and tasks that a stop interrupted.
#![tactic(auto)]

mod tasks;

pub use tasks::{
    what_is_recorded_fits_after_a_task_that_failed,
    what_is_recorded_stands_after_a_task_that_was_interrupted,
};
