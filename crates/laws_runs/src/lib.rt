//! Permitted histories as wholes: what is known at each of their moments, what their workers claim, and the laws that
//! follow of each of their moves. The only premise is that the history is permitted and began on a fit pair.
#![tactic(auto)]

mod claims;
mod facts;
mod safe;

pub use claims::{what_workers_claim_is_lawful, workers_never_wait_in_vain};
pub use facts::{each_moment_has_the_facts, each_move_keeps_the_facts, each_part_keeps_the_facts};
pub use safe::{
    calls_follow_their_phases, disks_are_deleted_as_asked, interrupted_tasks_end_first,
    links_stay_kept, no_package_is_compiled_twice, updates_roll_as_planned,
};
