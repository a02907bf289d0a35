//! Values of the plain types as JSON: how they are written to the programs of a cloud provider interface, and read again.
#![tactic(auto)]

mod choice;
mod fault;
mod fields;
mod key;
mod list;
mod make;
mod number;
mod spec;
mod text;
mod wired;
mod write;

pub use fault::WireFault;
pub use fields::{read_one, read_three, read_two, write_one, write_three, write_two};
pub use number::add_number;
pub use text::name_of;
pub use wired::Wired;
pub use write::{add, write_quoted};
