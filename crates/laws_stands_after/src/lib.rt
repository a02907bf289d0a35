//! What is recorded goes on to stand for what the entries tell: calls of disks that belong to no instance.
#![tactic(auto)]

mod disks;

pub use disks::{
    what_is_recorded_stands_after_a_call_of_a_disk_begins,
    what_is_recorded_stands_after_a_call_of_a_disk_ends,
};
