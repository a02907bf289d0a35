//! The release that the files of a folder spell.
#![tactic(auto)]

mod collecting;
mod draft;
mod drafted_package;
mod job;
mod laws;
mod needs;
mod prints;
mod reading;
mod required;

pub use bosh_release_files::{File, ReleaseFault};
pub use collecting::collect;
pub use laws::a_collected_release_is_sound;
