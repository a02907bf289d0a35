//! What one more entry changes in a cloud, and what an orderly list of effects keeps.
#![tactic(auto)]

mod laws;

pub use laws::{
    a_disk_is_held_by_its_own, an_entry_changes_a_disk, an_entry_changes_a_machine,
    what_is_created_stays, what_is_gone_is_gone, what_may_follow_is_orderly,
};
