//! Which packages are to be compiled: those that are asked for, and all that these need compiled before.
#![tactic(auto)]

mod marks;
mod needs;

pub use needs::needed;
