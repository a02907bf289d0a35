//! What is true of every row.
#![tactic(auto)]

mod ends;
mod ties;

pub use ends::{a_call_leaves_less, a_row_without_a_step_stands, the_steps_end};
pub use ties::{
    a_bare_row_is_rightful, a_call_leaves_a_doubt_that_fits, a_row_in_doubt_is_rightful,
    an_effect_settles_a_doubt, one_call_keeps_a_row_rightful, one_call_keeps_a_tie,
    what_a_call_names_is_there,
};
