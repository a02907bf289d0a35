//! What programs of cases tell in words: numbers, addresses, owners and links; goals; and the refusals of addresses, links
//! and templates.
#![tactic(auto)]

mod goals;
mod links;
mod pieces;
mod refusals;
mod rows;

pub use goals::goal_text;
pub use links::push_tie;
pub use pieces::{push_addr, push_band, push_count, push_inst, push_joint, push_owner};
pub use refusals::{link_words, pool_words, share_words, template_words};
