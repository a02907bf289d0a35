//! The node that events make.

ghost use Rattle.std.specs.Prelude.{◌≡◌, ◌∷◌, [], None, false, map, OnOk};
ghost use Rattle.std.specs.Option.{option_map};
ghost use Rattle.bosh_yaml.specs.declared.build.Open.TheVariants.{Entry as EntryOf, List as ListOf};
ghost use Rattle.bosh_yaml.specs.Keys.{has_key};
ghost use Rattle.bosh_yaml.specs.Nodes.{AreNew, IsNewIn, line_of_repeat, tree_from, with_close as with_closed, with_event, with_key as keyed, with_value as valued};
ghost use Rattle.bosh_yaml.specs.Result.{Gives};
ghost use Rattle.bosh_yaml.specs.View.{tree_of};

use crate::event::Event;
use crate::fault::ReadFault;
use crate::node::{Items, Node, Pairs};
use crate::text::Str;
use std::alloc::Global;
use std::collections::VecDeque;

/// A list or a mapping that is not whole.
#[derive(Drop)]
pub(crate) enum Open {
    List(Items),
    Map(Pairs),
    /// A mapping, and a key whose value has not come.
    Entry(Pairs, Str),
}

// Adds a value to the innermost collection, or answers it where none is outer.
fn with_value(value: Node, outer: &mut VecDeque<Open>) -> Result<Option<Node>, ReadFault>
    requires { AreNew outer.old.items }
    ensures gives { Gives (λ o. (option_map tree_of o, outer.new.items)) result (valued (tree_of value) outer.old.items) }
    ensures new { OnOk result (AreNew outer.new.items) }
{
    match outer.pop_front() {
        None => Ok(Some(value)),
        Some(Open::List(items)) => with_item(items, value, outer),
        Some(Open::Entry(pairs, key)) => with_entry(pairs, key, value, outer),
        Some(Open::Map(_)) => Err(ReadFault::Syntax { line: 0 }),
    }
}

// Opens a list again, with one more item.
fn with_item(
    mut items: Items,
    value: Node,
    outer: &mut VecDeque<Open>,
) -> Result<Option<Node>, ReadFault>
    requires { AreNew outer.old.items }
    ensures gives { Gives (λ o. (option_map tree_of o, outer.new.items)) result (valued (tree_of value) (ListOf items ∷ outer.old.items)) }
    ensures new { OnOk result (AreNew outer.new.items) }
{
    if items.push(value).is_err() {
        return Err(ReadFault::Memory);
    }
    outer.push_front(Open::List(items))?;
    Ok(None)
}

// Opens a mapping again, with one more key and its value.
fn with_entry(
    mut pairs: Pairs,
    key: Str,
    value: Node,
    outer: &mut VecDeque<Open>,
) -> Result<Option<Node>, ReadFault>
    requires all_new { AreNew outer.old.items }
    requires new { has_key key pairs ≡ false }
    ensures gives { Gives (λ o. (option_map tree_of o, outer.new.items)) result (valued (tree_of value) (EntryOf pairs key ∷ outer.old.items)) }
    ensures new { OnOk result (AreNew outer.new.items) }
{
    if pairs.push(key, value).is_err() {
        return Err(ReadFault::Memory);
    }
    outer.push_front(Open::Map(pairs))?;
    Ok(None)
}

fn with_key(key: Str, outer: &mut VecDeque<Open>) -> Result<Option<Node>, ReadFault>
    ensures gives { Gives (λ o. (option_map tree_of o, outer.new.items)) result (keyed key outer.old.items) }
{
    match outer.pop_front() {
        Some(Open::Map(pairs)) => {
            outer.push_front(Open::Entry(pairs, key))?;
            Ok(None)
        }
        _ => Err(ReadFault::Syntax { line: 0 }),
    }
}

fn with_close(outer: &mut VecDeque<Open>) -> Result<Option<Node>, ReadFault>
    requires { AreNew outer.old.items }
    ensures gives { Gives (λ o. (option_map tree_of o, outer.new.items)) result (with_closed outer.old.items) }
    ensures new { OnOk result (AreNew outer.new.items) }
{
    match outer.pop_front() {
        Some(Open::List(items)) => with_value(Node::List(items), outer),
        Some(Open::Map(pairs)) => with_value(Node::Map(pairs), outer),
        _ => Err(ReadFault::Syntax { line: 0 }),
    }
}

// Takes one event.
fn take_event(
    alloc: Global,
    event: Event,
    outer: &mut VecDeque<Open>,
) -> Result<Option<Node>, ReadFault>
    requires all_new { AreNew outer.old.items }
    requires new { IsNewIn event outer.old.items }
    ensures gives { Gives (λ o. (option_map tree_of o, outer.new.items)) result (with_event event outer.old.items) }
    ensures new { OnOk result (AreNew outer.new.items) }
{
    match event {
        Event::Scalar(leaf) => with_value(Node::from(leaf), outer),
        Event::OpenList => {
            outer.push_front(Open::List(Items::new(alloc)))?;
            Ok(None)
        }
        Event::OpenMap => {
            outer.push_front(Open::Map(Pairs::new(alloc)))?;
            Ok(None)
        }
        Event::Key { key, .. } => with_key(key, outer),
        Event::Close => with_close(outer),
    }
}

/// The node that events make in which no key stands twice in its mapping.
// Dear to prove: one loop over all events, in which each open list and mapping is alive.
pub(crate) fn node_of(alloc: Global, events: Vec<Event>) -> Result<Node, ReadFault>
    requires { line_of_repeat [] events.items ≡ None }
    ensures { Gives tree_of result (tree_from None [] events.items) }
{
    let mut outer = VecDeque::new(alloc);
    let mut whole = None;
    for event in events {
        if whole.is_some() {
            return Err(ReadFault::Syntax { line: 0 });
        }
        whole = take_event(alloc, event, &mut outer)?;
    }
    whole.ok_or(ReadFault::Syntax { line: 0 })
}
