//! The journal of a director: its entries in order, each durable in a store before it counts.
#![tactic(auto)]

mod append;
mod compact;
mod director;
mod fault;
mod format;
mod journal;
mod laws;
mod load;
mod read;
mod rigged;
mod spelled;
mod translate;

pub use director::{is_directors, is_snapshot};
pub use fault::JournalFault;
pub use journal::Journal;
pub use laws::{
    bodies_say_one_thing, what_is_held_is_spelled, what_is_spelled_is_held, what_was_kept_is_loaded,
};
