//! How entries are spelled in bytes, in the present format and in the older one.
#![tactic(auto)]

mod addr;
mod answer;
mod body;
mod call;
mod choice;
mod codec;
mod coded;
mod disk_want;
mod entry;
mod failure;
mod fault;
mod format;
mod goal;
mod inst;
mod key;
mod later;
mod laws;
mod link;
mod list;
mod make;
mod method;
mod number;
mod offer;
mod owner;
mod pair;
mod plain;
mod release;
mod row;
mod snapshot;
mod source;
mod spec;
mod state;
mod stemcell;
mod task;
mod text;
mod variant;

pub use codec::{read, read_old, write};
pub use fault::EntryFault;
pub use laws::{
    older_bodies_are_read, one_entry_for_a_body, what_is_read_is_older, what_is_read_is_written,
    what_is_written_is_read,
};
