//! What is recorded goes on to stand for what the entries tell: compile machines that are being made, and calls of compile
//! machines that may be noted.
#![tactic(auto)]

mod calls;
mod machines;

pub use calls::{
    what_is_recorded_stands_after_a_call_of_a_compile_machine_that_may_begin,
    what_is_recorded_stands_after_a_call_of_a_compile_machine_that_may_end,
};
pub use machines::what_is_recorded_stands_once_a_compile_machine_is_being_made;
