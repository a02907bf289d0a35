//! The words of a command line: where they stand, what may stand at a place, and which fault a line has.
#![tactic(auto)]

mod choice;
mod fault;
mod inst;
mod method;
mod name;
mod number;
mod owner;
mod path;
mod place;
mod places;
mod text;
mod version;
mod word;

pub use choice::{Choice, end, has, options};
pub use fault::LineFault;
pub use inst::{InstWord, Member};
pub use name::{NameWord, is_name, name_of};
pub use number::Number;
pub use owner::{DiskWord, OwnerWord, Whose};
pub use path::Path;
pub use place::{Place, take};
pub use places::{five, four, one, three, two};
pub use text::is_text;
pub use version::{VersionOption, VersionWord};
pub use word::{Rest, Word};
