//! Answers cases on what texts are: addresses, names, versions and nodes; and on the rules of compilation and of rolling
//! updates.
#![tactic(auto)]

mod calls;
mod plain;
mod rolls;
mod texts;
mod works;

pub use calls::Rules;
