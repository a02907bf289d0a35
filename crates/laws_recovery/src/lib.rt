//! What is recorded before the first entry stands. The tasks that a start finds open come to their ends, and what is recorded
//! then stands for a snapshot of what it read, too.
#![tactic(auto)]

mod ended;
mod ending;
mod first;

pub use ended::what_is_recorded_stands_for_a_snapshot_of_it;
pub use ending::tasks_that_are_open_come_to_their_ends;
pub use first::what_is_recorded_at_first_stands;
