//! A site as the director of a session: each call on it adds moves to its history and no reply, and keeps that its history is
//! permitted.
#![tactic(auto, using(crate::proofs::ActLemmas::acts_none, crate::proofs::KeepLemmas::keeps_none))]

mod directing;
mod jobs;
mod obeying;
mod seeing;
mod site_desk;
mod traps;

pub use directing::Directing;
