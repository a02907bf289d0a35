//! All facts on a row and the cloud are kept by the next call of the row, however it is answered.
#![tactic(auto)]

mod facts;
mod later;

pub use facts::{
    a_row_before_its_call_has_its_facts, a_row_with_its_facts_is_rightful,
    one_call_keeps_the_facts_of_a_row,
};
pub use later::{a_row_with_its_facts_is_asked, one_more_call_is_answered};
