//! Single moments of histories, and what the definitions of histories say of each: which move may come next, which
//! goal a task may open with, what a task left, what a site may begin on, and when a row has no problem.
#![tactic(auto)]

mod borrowed;
mod budgets;
mod entries;
mod goals;
mod lawful;
mod left;
mod listed;
mod loads;
mod loose;
mod moves;
mod seen;

pub use borrowed::a_borrowed_machine_is_not_tied;
pub use budgets::calls_are_counted;
pub use entries::{
    entries_are_noted, entries_of_calls_are_refused, entries_of_tasks_are_refused,
    uploads_are_refused,
};
pub use goals::{
    goals_are_sound, goals_of_keys_that_are_left, goals_of_other_tasks_are_sound,
    goals_of_other_tasks_are_unsound, goals_of_unsound_addresses, goals_of_unsound_instances,
    goals_of_unsound_keys_and_links,
};
pub use lawful::{deploys_are_clean, histories_are_lawful, workers_are_apart};
pub use left::{deploys_do_not_leave, deploys_leave, fixes_leave, reports_of_done};
pub use listed::{snapshots_are_sound, snapshots_are_unsound};
pub use loads::{
    openings_are_reached, openings_are_safe, openings_are_unsafe, openings_do_not_fit,
    openings_fit, what_hides_a_row_does_not_fit, what_is_cut_in_a_call_does_not_fit,
};
pub use loose::{
    deletions_are_exact, detached_instances_are_exact, loose_disks_are_not_exact,
    unwanted_disks_are_not_exact,
};
pub use moves::{moves_are_permitted, moves_are_refused};
pub use seen::{rows_agree, rows_differ};
