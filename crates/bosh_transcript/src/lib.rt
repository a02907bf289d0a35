//! What a session reads, answers and writes, and the status that it ends with.
#![tactic(auto)]

mod extent;
mod laws;
mod numbered;
mod output;
mod status;

pub use extent::{Extent, extent_of};
pub use laws::{calls_follow_each_other, turns_answer_each_command};
pub use numbered::{Numbered, next, next_commands};
pub use output::write_all;
pub use status::Status;
