//! What the compile machines of a deployment are made from.
#![tactic(auto)]

mod holding;
mod making;

pub use making::slots;
