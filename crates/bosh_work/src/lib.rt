//! What is left to do of an open task: which of its items are left, in which order, and how far each of its groups has
//! come. Plain data, with what is read from it.
#![tactic(auto)]

mod crossing;
mod groups;
mod line;
mod part;
mod work;

pub use crossing::what_crosses_threads;
pub use groups::{GroupWork, Groups};
pub use line::Line;
pub use part::{GroupPlace, MachineName, Part, Places};
pub use work::{Work, number};
