//! What is read from the records is what is known, and what opens by them may be noted.
#![tactic(auto)]

mod openings;
mod reading;
mod views;

pub use openings::{openings_may_be_noted, openings_may_open};
pub use reading::what_is_known_is_read;
pub use views::{views_are_of_what_is_known, what_is_known_can_be_viewed};
