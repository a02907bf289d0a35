//! Carries tasks to their ends.
#![tactic(auto)]

mod driver;
mod place;
mod step;

pub use driver::drive;
pub use place::Place;
pub use step::{Step, advance};
