//! What is recorded goes on to stand for what the entries tell: tasks that open.
#![tactic(auto)]

mod tables;

pub use tables::what_is_recorded_stands_after_a_task_that_may_open;
