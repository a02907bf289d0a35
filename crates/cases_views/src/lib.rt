//! Answers cases on goals: that of a manifest, and the current one with an instance changed.
#![tactic(auto)]

mod asked;
mod calls;
mod goals;
mod told;
mod uploads;
mod views;

pub use calls::Views;
