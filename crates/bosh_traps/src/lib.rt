//! Traps: what is made to fail, or to stop the director, at a later call.
#![tactic(auto)]

mod trap;

pub use trap::{Armed, Firing, Trap, decided, see};
