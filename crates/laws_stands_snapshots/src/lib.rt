//! Snapshots of what is recorded, and what is recorded once one was read.
#![tactic(auto)]

mod anew;
mod compiled;
mod snapshots;

pub use anew::{
    compiled_keys_read_anew_stand, records_read_anew_fit, records_read_anew_stand,
    snapshot_tells_nothing_of_others, snapshot_that_is_learned_stands,
};
pub use compiled::{compiled_keys_go_on_to_stand, compiled_keys_stand_at_first};
pub use snapshots::{
    snapshot_of_the_records_is_that_of_what_is_known, snapshot_of_what_is_known_can_be_read,
    what_reads_a_snapshot_of_the_records_stands,
};
