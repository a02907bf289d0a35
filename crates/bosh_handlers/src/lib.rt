//! What commands do at a desk: each is carried out and given its reply. None notes a reply in the history.
#![tactic(auto, using(crate::proofs::PastLemmas::none_came))]

mod answering;
mod config;
mod ends;
mod opening;
mod tasks;
mod uploads;

pub use answering::answer;
pub use config::set_config;
pub use ends::{refused_by_site, stopped};
pub use opening::{open_request, open_text};
pub use tasks::{carry_out, run, told};
pub use uploads::{upload_files, upload_stemcell};
