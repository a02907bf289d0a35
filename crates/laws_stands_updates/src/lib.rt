//! What is recorded goes on to stand for what the entries tell: updates that are done, and instances that leave.
#![tactic(auto)]

mod disks;
mod updates;

pub use disks::what_is_recorded_stands_once_disks_are_left;
pub use updates::{
    what_is_recorded_stands_after_an_instance_leaves,
    what_is_recorded_stands_after_an_update_is_done,
};
