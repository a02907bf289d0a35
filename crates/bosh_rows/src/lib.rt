//! What is recorded of an instance: what is to be done next for it, what a call changes in it, when it stands as it is
//! wanted, and when it is what the cloud has.
#![tactic(auto)]

mod answered;
mod begun;
mod call_made;
mod disk_change;
mod disks;
mod fault;
mod group;
mod laws;
mod next_step;
mod place;
mod removal;
mod standing;
mod step;
mod tending;
mod unknown;
mod update;

pub use answered::after;
pub use begun::{bare, begin};
pub use call_made::{call_of, has_its_machine};
pub use fault::RowFault;
pub use laws::{a_next_step_is_a_call, an_answer_keeps_the_active_disk, an_answer_says};
pub use next_step::next;
pub use standing::stands;
pub use step::Step;
pub use update::{instance_gone, update_done};
