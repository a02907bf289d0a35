//! What is true of every goal that is given, whatever else the manifest asks for.
#![tactic(auto)]

mod addresses;
mod compiling;
mod instances;
mod renewal;
mod soundness;
mod ties;

pub use addresses::goals_have_free_addresses;
pub use compiling::{keys_are_in_order, keys_in_order_can_be_compiled};
pub use instances::{rows_are_planned, rows_keep_their_places};
pub use renewal::{
    renewed_goals_can_be_compiled, renewed_goals_have_free_addresses,
    renewed_goals_keep_the_current_one,
};
pub use soundness::{goals_are_sound, renewed_goals_are_sound};
pub use ties::{offers_are_of_the_deployment, ties_are_offered};
