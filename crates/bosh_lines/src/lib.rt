//! The lines of a session, read as commands.
#![tactic(auto)]

mod call;
mod command;
mod deployment;
mod line;
mod site;
mod variable;
mod verb;
mod word;

pub use bosh_line_words::LineFault;
pub use command::{Command, Deploy, StopCall};
pub use line::parse_line;
pub use variable::Variable;
pub use word::{Lost, Others, When};
