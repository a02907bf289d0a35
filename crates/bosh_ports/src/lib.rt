//! The outside world as traits: where bytes come from and go to, files, a list of bodies that outlives the program,
//! and a gate. Each has a stand-in in memory, and those that a program starts on have a thin adapter.
#![tactic(auto)]

mod byte_strings;
mod contents;
mod errors;
mod failing;
mod fault_count;
mod folder;
mod folder_shelf;
mod gate;
mod inside;
mod keeper;
mod listing;
mod mem_keeper;
mod mem_shelf;
mod mem_sink;
mod mem_source;
mod piece;
mod reading;
mod retry;
mod rig;
mod rigged;
mod shelf;
mod sink;
mod source;
mod walk;
mod writing;

pub use byte_strings::{Bodies, ByteStrings, Paths};
pub use folder_shelf::FolderShelf;
pub use gate::{Gate, OpenGate};
pub use keeper::{KeepFault, Keeper};
pub use mem_keeper::MemKeeper;
pub use mem_shelf::MemShelf;
pub use mem_sink::MemSink;
pub use mem_source::MemSource;
pub use reading::Reading;
pub use rig::{Armed, Rig};
pub use rigged::Rigged;
pub use shelf::{MOST_BYTES, MOST_PATHS, Shelf, ShelfFault, has_line_feed, is_below};
pub use sink::{Put, Sink};
pub use source::{Source, Taken};
pub use writing::Writing;
