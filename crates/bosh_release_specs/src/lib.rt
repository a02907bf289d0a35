//! What the specs of a release's jobs and packages say, and how a release is named.
#![tactic(auto)]

mod fallback;
mod job;
mod job_file;
mod link;
mod mapping;
mod package_file;

pub use job::{JobDescription, TemplatePlace};
pub use job_file::job_spec;
pub use package_file::{PackageDescription, package_spec, release_name};
