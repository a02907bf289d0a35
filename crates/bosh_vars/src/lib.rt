//! Variables: the placeholders of a node, replaced by the values that are given for their names.
#![tactic(auto)]

mod fault;
mod filling;
mod insertion;
mod law;
mod measure;
mod placeholder;
mod table;
mod var;

pub use fault::VarsFault;
pub use filling::fill;
pub use law::{parts_are_the_text, what_is_measured_is_made};
pub use placeholder::is_name;
pub use var::Var;
