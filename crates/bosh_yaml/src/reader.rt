//! Reading a text, which is of the YAML subset or JSON.

ghost use Rattle.std.specs.Prelude.{◌≡◌, [], ◌≤◌, length};
ghost use Rattle.serde_json.specs.View.{view};
ghost use Rattle.bosh_yaml.specs.Nodes.{line_of_repeat};
ghost use Rattle.bosh_yaml.specs.Reading.{checked_tree as approved, integers_only, json_reading, reading, yaml_reading};
ghost use Rattle.bosh_yaml.specs.Result.{Gives};
ghost use Rattle.bosh_yaml.specs.View.{tree_of};

use crate::build::node_of;
use crate::check::{first_repeated, nesting};
use crate::event::Event;
use crate::fault::ReadFault;
use crate::json_value::{self, is_deeper, value_of};
use crate::line::begins;
use crate::node::Node;
use crate::scan::events_of;
use std::alloc::Global;

/// How many bytes a text may have.
pub const MAX_BYTES: usize = 1_048_576;

/// How deep lists and mappings may nest.
pub const MAX_DEPTH: usize = 64;

/// The node that a text spells. A text whose first byte is `{` is JSON.
pub fn read(alloc: Global, text: &[u8]) -> Result<Node, ReadFault>
    ensures { Gives tree_of result (reading text.now) }
{
    if text.len() > MAX_BYTES {
        return Err(ReadFault::TooLarge);
    }
    if begins(b'{', text) {
        read_json(alloc, text)
    } else {
        read_yaml(alloc, text)
    }
}

fn read_yaml(alloc: Global, text: &[u8]) -> Result<Node, ReadFault>
    requires { length text.now ≤ 1048576 }
    ensures { Gives tree_of result (yaml_reading text.now) }
{
    let events = events_of(alloc, text)?;
    checked(alloc, events)
}

fn read_json(alloc: Global, text: &[u8]) -> Result<Node, ReadFault>
    ensures { Gives tree_of result (json_reading text.now) }
{
    let value = value_of(alloc, text)?;
    if is_deeper(MAX_DEPTH, &value) {
        return Err(ReadFault::TooDeep);
    }
    json_value::node_of(alloc, value)
}

// The node of events, unless a key stands twice in its mapping, or lists and mappings nest too deep.
fn checked(alloc: Global, events: Vec<Event>) -> Result<Node, ReadFault>
    ensures { Gives tree_of result (approved (line_of_repeat [] events.items) events.items) }
{
    if let Some(line) = first_repeated(alloc, events.as_slice())? {
        return Err(ReadFault::RepeatedKey { line });
    }
    if nesting(events.as_slice()) > MAX_DEPTH {
        return Err(ReadFault::TooDeep);
    }
    node_of(alloc, events)
}
