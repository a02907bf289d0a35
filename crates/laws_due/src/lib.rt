//! What a site does for a command, and what is told of it, is what the command is due.
#![tactic(auto)]

mod counts;
mod jobs;
mod lists;
mod openings;
mod uploads;

pub use counts::what_is_noted_is_counted;
pub use jobs::{
    a_loss_is_answered_as_it_is_due, a_reading_is_answered_as_it_is_due,
    a_write_is_answered_as_it_is_due,
};
pub use lists::what_is_listed_is_due;
pub use openings::an_opening_is_answered_as_it_is_due;
pub use uploads::{
    a_config_is_answered_as_it_is_due, a_release_is_answered_as_it_is_due,
    a_stemcell_is_answered_as_it_is_due,
};
