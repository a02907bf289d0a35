//! The files of the jobs of an instance, rendered, as long as a deployment may have so many bytes of them.
#![tactic(auto)]

mod budget;
mod filing;
mod jobs;
mod laws;
mod text;

pub use budget::Budget;
pub use filing::files;
pub use jobs::FiledJob;
pub use laws::read_as_spelled;
