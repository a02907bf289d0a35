//! What may be noted at a moment of a history is allowed after the entries that the records stand for.
#![tactic(auto)]

mod entries;

pub use entries::{a_task_that_may_open_is_allowed_to, what_may_be_noted_is_allowed};
