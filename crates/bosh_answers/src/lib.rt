//! What commands are answered from files, from what is recorded, and from what is there in the cloud: the files that they
//! name, what a deploy of a text asks for, lists, the ends of tasks, and refusals.
#![tactic(auto)]

mod check;
mod deploy;
mod ends;
mod fault;
mod files;
mod folder;
mod kind;
mod listings;
mod placed;
mod refusing;
mod text_fault;

pub use check::check_cloud;
pub use deploy::{How, deploy_of};
pub use ends::{end_of, told_end};
pub use fault::AnswerFault;
pub use files::{Files, KeptFile};
pub use folder::{read_file, read_folder};
pub use kind::{Kind, Listing, SiteCommand, Upload, kind_of};
pub use listings::{
    list, list_cloud, list_compiled, list_instances, list_orphans, list_releases, list_tasks,
    show_task,
};
pub use placed::show_file;
pub use refusing::{refused, replied};
pub use text_fault::TextFault;
