//! The session: commands are read one after the other, carried out by a director, and answered.
#![tactic(auto)]

mod generate;
mod memory;
mod session;
mod together;

pub use session::carry_out_all;
