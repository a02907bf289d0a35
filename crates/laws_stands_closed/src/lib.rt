//! What is recorded goes on to stand for what the entries tell: tasks that end.
#![tactic(auto)]

mod ends;

pub use ends::what_is_recorded_stands_once_a_task_is_closed;
