//! Facts of a row that its next call keeps by itself, however it is answered.
#![tactic(auto)]

mod kept;
mod lack;

pub use kept::{
    a_call_keeps_a_deleted_row_bare, a_call_keeps_a_lost_machine_silent,
    a_call_keeps_room_for_disks, a_call_keeps_the_disks_in_order,
    a_call_keeps_the_machine_that_is_needed,
};
pub use lack::a_silent_machine_loses_its_disks;
