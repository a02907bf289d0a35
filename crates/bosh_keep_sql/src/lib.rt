//! A keeper of bodies over one table of a database.
#![tactic(auto)]

mod fault;
mod keeper;
mod rows;
mod statements;
mod store;
mod table;
mod transaction;

pub use fault::LoadFault;
pub use keeper::SqlKeeper;
