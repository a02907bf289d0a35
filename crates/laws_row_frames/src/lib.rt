//! The facts on a row and the cloud are kept by what is done beside the steps of the row.
#![tactic(auto)]

mod cloud;
mod losses;
mod others;
mod ping;
mod updates;

pub use cloud::an_entry_keeps_the_facts_of_the_cloud;
pub use losses::a_loss_leaves_the_facts_of_a_row;
pub use others::{a_write_leaves_the_facts_of_a_row, anothers_effect_leaves_the_facts_of_a_row};
pub use ping::a_ping_keeps_the_facts_of_a_row;
pub use updates::{
    a_done_update_keeps_the_facts_of_a_row, a_dropped_row_leaves_the_facts_of_a_bare_one,
};
