//! No call is open between commands, a worker waits only where one is, and so a command never finds a task locked.
#![tactic(auto)]

mod hands;
mod unlocked;
mod waiting;

pub use hands::{no_call_is_open_between_commands, what_is_open_is_at_hand};
pub use unlocked::a_command_never_finds_a_task_locked;
pub use waiting::a_worker_waits_only_for_open_calls;
