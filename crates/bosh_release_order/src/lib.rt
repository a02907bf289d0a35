//! The order of things that need one another, or the first thing that needs itself.
#![tactic(auto)]

mod answer;
mod check;
mod number;
mod order;
mod search;

pub use answer::order_of;
pub use order::Order;
