//! The histories of a site: what its moves made durable, what they did to the cloud, which move is permitted after
//! which, and what it means that a history is safe, tied and recovered, and that a task left exactly what it was asked
//! for.
#![tactic(auto)]

mod laws;
mod limits;

pub use laws::{an_entry_leaves_the_others, one_more, runs_go_on, the_durable_entries_tell};
pub use limits::{MOST_CALLS_OF_A_MACHINE, MOST_CALLS_OF_A_ROW};
