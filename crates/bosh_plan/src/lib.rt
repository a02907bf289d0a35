//! What one entry changes in what is recorded, made before anything changes, so that no memory is wanted then: the
//! opening of a task, the beginning and the end of a call, the end of an update, and how a task ends.
#![tactic(auto)]

mod beginning;
mod closing;
mod ending;
mod fault;
mod grouping;
mod key_places;
mod lines;
mod opening;
mod updating;

pub use beginning::{Begun, Subject, plan_begin};
pub use closing::{plan_done, plan_error};
pub use ending::{After, Ended, Told, plan_end};
pub use opening::{Opened, plan_opening};
pub use updating::{Updated, plan_gone, plan_update_done};
