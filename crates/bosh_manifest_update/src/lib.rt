//! How the instances of a deployment are updated: canaries, how many at once, watch times, and in which order.
#![tactic(auto)]

mod amount;
mod update;
mod watch_time;

pub use update::{Update, group_update};
