//! What is planned over the records is what is planned over what is known.
#![tactic(auto)]

mod plans;

pub use plans::{what_is_refused_is_planned, what_opens_is_planned};
