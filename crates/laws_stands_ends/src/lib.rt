//! What is recorded goes on to stand for what the entries tell: calls of compile machines that end.
#![tactic(auto)]

mod calls;
mod machines;

pub use calls::what_is_recorded_stands_after_a_call_of_a_compile_machine_ends;
pub use machines::what_is_recorded_stands_once_a_compile_machine_is_gone;
