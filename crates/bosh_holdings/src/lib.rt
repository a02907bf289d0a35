//! What an instance holds: the machine that is its own, and the disk that its jobs work on.
#![tactic(auto)]

mod finding;

pub use finding::{its_machine, job_disk, thing_of};
