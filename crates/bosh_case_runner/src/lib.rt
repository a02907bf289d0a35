//! Reads tables of cases, has each case answered, and tells which come out otherwise than they state.
#![tactic(auto)]

mod case;
mod run;
mod source;
mod table;
mod tally;

pub use run::run_tables;
