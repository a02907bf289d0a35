//! The commands of an input: its bytes are taken from a source in pieces, and split into lines, blocks and commands.
#![tactic(auto)]

mod fault;
mod input;
mod line;
mod reader;
mod request;

pub use fault::InputFault;
pub use input::Input;
pub use request::Request;
