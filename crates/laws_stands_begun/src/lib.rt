//! What is recorded goes on to stand for what the entries tell: calls of compile machines that begin.
#![tactic(auto)]

mod calls;

pub use calls::what_is_recorded_stands_after_a_call_of_a_compile_machine_begins;
