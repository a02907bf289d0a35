//! How each fault of the director is told: by a word for the part that refused, its reason, and what the reason names.
#![tactic(auto)]

mod book;
mod config;
mod goal;
mod lines;
mod links;
mod manifest;
mod pool;
mod refusal;
mod release;
mod session;
mod share;
mod shelf;
mod template;
mod vars;
mod yaml;

pub use refusal::{Refuses, refused, refused_with};
pub use session::SessionFault;
