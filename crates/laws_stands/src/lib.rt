//! What is recorded stands for what the entries tell, and what is chosen by the records is what a worker is to claim.
#![tactic(auto)]

mod choices;
mod groups;
mod lines;
mod tables;

pub use choices::what_is_chosen_is_what_is_claimed;
pub use groups::groups_have_the_first_instance;
pub use lines::a_line_has_its_first_item;
pub use tables::wants_are_found;
