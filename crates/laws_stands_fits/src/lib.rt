//! What is recorded of open tasks fits what is told of them.
#![tactic(auto)]

mod entries;
mod room;

pub use entries::what_is_recorded_fits_after_entries_within_tasks;
pub use room::what_is_recorded_fits_with_room_for_more;
