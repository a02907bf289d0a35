//! Rows of an instance, and what the definitions of rows say of each; and what the claim of a task gives over worked
//! histories.
#![tactic(auto)]

mod asked;
mod claims;
mod claims_permitted;
mod disks;
mod doubts;
mod entries;
mod machines;
mod running;
mod slots;
mod standing;
mod ties;
mod walks;

pub use asked::what_was_asked_is_tried_as_it_changes;
pub use claims::{
    claims_are_in_order, claims_at_moments, claims_first, claims_fourth, claims_give_nothing_wrong,
    claims_second, claims_third,
};
pub use claims_permitted::{permitted_first, permitted_fourth, permitted_second, permitted_third};
pub use disks::{disks_are_cleared, disks_are_provided, disks_are_released, disks_are_replaced};
pub use doubts::{doubts_come_first, lost_rows_go};
pub use entries::{agents_answer, calls_begin, disks_answer, machines_answer, updates_are_done};
pub use machines::{machines_are_created, machines_are_removed};
pub use running::{jobs_are_paused, specs_are_applied_and_jobs_started};
pub use slots::two_slots_examples;
pub use standing::{disks_do_not_stand, machines_do_not_stand, rows_stand};
pub use ties::{
    lost_rows_are_not_tied, lost_rows_are_tied, rows_are_not_tied, rows_are_tied,
    rows_in_doubt_are_not_tied, rows_in_doubt_are_tied,
};
pub use walks::{instances_arrive, instances_leave};
