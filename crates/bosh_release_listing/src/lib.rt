//! What stands for a package and for a job of a release: a listing of what it is made of, and the listing's fingerprint.
#![tactic(auto)]

mod laws;
mod listing;

pub use laws::a_text_tells_its_listing;
pub use listing::{Stamp, fingerprint, job_fingerprint, package_fingerprint};
