//! What is recorded stands for what the entries tell, after each entry that is permitted.
#![tactic(auto)]

mod entries;

pub use entries::what_is_recorded_stands_after_each_permitted_entry;
