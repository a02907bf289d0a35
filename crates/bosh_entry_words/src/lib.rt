//! Entries that cases write in words, as those of a book are told.
#![tactic(auto)]

mod entries;
mod openings;

pub use entries::entry;
