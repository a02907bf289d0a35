//! What a session needs of a director: commands are carried out, tasks are opened and run, and replies are noted.
#![tactic(auto)]

mod director;
mod left;
mod opened;

pub use director::Director;
pub use left::Left;
pub use opened::Opened;
