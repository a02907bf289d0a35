//! What cases of sites write and tell in words: traps, moves, what a site refuses, and what is there.
#![tactic(auto)]

mod faults;
mod moves;
mod there;
mod traps;

pub use faults::Refused;
pub use moves::push_moves;
pub use there::{Numbers, There, push_there};
pub use traps::{is_counted, push_armed, trap};
