//! What is recorded goes on to stand for what the entries tell: compile machines and keys.
#![tactic(auto)]

mod calls;
mod keys;
mod machines;

pub use calls::{
    what_is_recorded_stands_after_a_compilation_ends,
    what_is_recorded_stands_once_a_call_of_a_compile_machine_is_closed,
};
pub use keys::what_is_recorded_stands_once_a_key_is_compiled;
pub use machines::what_is_recorded_stands_once_a_compile_machine_is_told_of;
