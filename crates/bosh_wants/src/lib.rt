//! Where the instances of a deployment stand: how their groups are updated, in which zones they are, and which addresses they
//! need and have.
#![tactic(auto)]

mod holding;
mod plan;
mod statics;
mod wanting;
mod zone;

pub use holding::kept;
pub use plan::plans;
pub use statics::check_counts;
pub use wanting::wants;
pub use zone::{row_of, zone_of};
