//! The work of a task that opens, and that of the others.
#![tactic(auto)]

mod works;

pub use works::{work_of_a_task_that_opens_stands, works_of_others_stand_once_a_task_opens};
