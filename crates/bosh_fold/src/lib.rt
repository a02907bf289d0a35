//! What the entries of a director's store stand for: one more entry is taken into what is recorded, by what it changes,
//! which is made before and takes no memory any more.
#![tactic(auto)]

mod anew;
mod beginning;
mod change;
mod closing;
mod ending;
mod marks;
mod opening;
mod updating;
mod wants;

pub use change::{Change, apply, learn, plan};
