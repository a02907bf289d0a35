//! Whether releases are sound, and go with one another.
#![tactic(auto)]

mod names;
mod needs;
mod release;
mod releases;

pub use releases::{are_sound, are_sound_with};
