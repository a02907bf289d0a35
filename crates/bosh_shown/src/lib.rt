//! What is listed of what a director has recorded, and of what is there in the cloud.
#![tactic(auto)]

mod cloud;
mod disks;
mod instances;
mod machines;
mod orphans;
mod releases;
mod tasks;

pub use cloud::cloud_listing;
pub use instances::instance_lines;
pub use orphans::orphan_lines;
pub use releases::release_lines;
pub use tasks::{task_detail, task_lines};
