//! Links across deployments: which offer of another deployment each consumer is tied to.
#![tactic(auto)]

mod across;
mod directory;
mod fault;
mod resolution;

pub use across::Across;
pub use fault::ShareFault;
pub use resolution::resolve_across;
