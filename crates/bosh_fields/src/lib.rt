//! The fields of a mapping: the values at its keys, each of a kind, or the first fault in the order in which they are
//! read.
#![tactic(auto)]

mod addr;
mod distinct;
mod empty;
mod fault;
mod field;
mod kind;
mod list;
mod number;

pub use addr::spelled;
pub use distinct::{Distinct, NamedItem, check_mapping, item_name, note_name};
pub use empty::{check_nothing, is_empty, unless_asked};
pub use fault::{FieldFault, limit, malformed, missing, repeated, unsupported, wrong_kind};
pub use field::{optional, required, required_both, value_at};
pub use kind::FromField;
pub use list::{List, UNLIMITED, items_up_to};
pub use number::Number;
