//! What holds at each moment of a permitted history, and is kept by each permitted move: the facts from which the laws
//! of histories follow.
#![tactic(auto)]

mod kept;
mod start;

pub use kept::{
    current_goals_are_kept, each_history_lists_its_keys, goals_are_kept, instances_are_kept,
    links_are_kept, lists_are_kept, locks_are_kept, machines_are_kept,
    machines_are_made_in_their_deployments, numbers_are_kept, open_calls_are_kept,
    orphans_are_kept, updates_are_kept,
};
pub use start::nothing_keeps_the_facts;
