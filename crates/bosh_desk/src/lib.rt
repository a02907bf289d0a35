//! What commands are carried out on, whatever stands behind it: a desk at which uploads are recorded, tasks are opened and
//! carried to their ends, and what is recorded is looked up; and how it is told why a desk did not do what it was asked.
#![tactic(auto)]

mod desk;
mod site_fault;

pub use desk::Desk;
pub use site_fault::refusal_of;
