//! Packages of one fingerprint: whether they are one package in all releases.
#![tactic(auto)]

mod alike;
mod beside;

pub use beside::stay_alike;
