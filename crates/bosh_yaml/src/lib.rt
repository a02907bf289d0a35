//! Nodes: what a YAML or JSON text says, as null, truth values, integers, texts, lists and mappings.
#![tactic(auto)]

mod bare;
mod block;
mod build;
mod canonical;
mod check;
mod content;
mod copied;
mod event;
mod fault;
mod flow;
mod hash;
mod json_value;
mod laws;
mod line;
mod literal;
mod node;
mod places;
mod plain;
mod quoted;
mod reader;
mod scan;
mod text;
mod word;

pub use canonical::canon;
pub use copied::{Copied, CopyFault};
pub use fault::ReadFault;
pub use laws::{
    key_order_keeps_values, refusals_name_a_line, refused_spells_none, repeated_key_is_on_its_line,
    spelled_once, what_is_canonical_is_read, what_is_read_is_spelled, what_is_spelled_is_read,
    what_is_too_deep_is_spelled, what_repeats_a_key_is_refused,
};
pub use node::{Items, Node, Pairs};
pub use plain::scalar;
pub use reader::{MAX_BYTES, MAX_DEPTH, read};
pub use text::{OfFault, Str};
