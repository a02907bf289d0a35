//! The facts on compile machines and on orphaned disks are kept by their calls.
#![tactic(auto)]

mod frames;
mod orphans;
mod slots;

pub use frames::{
    a_write_or_a_loss_leaves_the_facts_of_a_compile_machine,
    anothers_effect_leaves_the_facts_of_a_compile_machine, what_others_do_leaves_an_orphaned_disk,
};
pub use orphans::one_call_keeps_an_orphaned_disk;
pub use slots::one_call_keeps_the_facts_of_a_compile_machine;
