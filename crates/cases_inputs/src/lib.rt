//! Answers cases on what a director is given: cloud configs, manifests, releases, variables and templates; and on what
//! follows from them alone: addresses and ties of links.
#![tactic(auto)]

mod calls;
mod configs;
mod groups;
mod manifests;
mod networks;
mod pools;
mod releases;
mod templates;
mod ties;
mod vars;

pub use calls::Inputs;
