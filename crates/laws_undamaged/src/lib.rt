//! No load of what a permitted history leaves finds it damaged, and what came from outside is sound.
#![tactic(auto)]

mod damage;
mod outside;

pub use damage::what_a_history_leaves_is_not_damaged;
pub use outside::{what_came_from_outside_is_sound, what_the_program_finds_out_is_right};
