//! The files of a release's folder: what stands at a path, which folders there are, and which files a package takes.
#![tactic(auto)]

mod fault;
mod folder;
mod path;
mod pattern;
mod sources;
mod span;
mod taking;

pub use fault::{
    ReleaseFault, cycle, limit, malformed_spec, missing, name_differs, unknown_package,
};
pub use folder::{File, Folder, folders_below};
pub use pattern::{Form, Pattern};
pub use sources::Sources;
