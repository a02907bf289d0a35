//! Texts with the values of their placeholders.

ghost use Rattle.std.specs.Prelude.{◌≡◌, ◌++◌, IfSome, Ok, OnOk};
ghost use Rattle.std.specs.Option.{option_map};
ghost use Rattle.std.specs.Str.{IsUtf8};
ghost use Rattle.bosh_yaml.specs.View.{tree_of};
ghost use Rattle.bosh_vars.specs.Filled.{filled_text, joined_text as joined_parts, only_name as single_name, text_for};
ghost use Rattle.bosh_vars.specs.Placeholder.{parts};
ghost use Rattle.bosh_vars.specs.Result.{Gives, with_front};
ghost use Rattle.bosh_vars.specs.Table.{found_in};

use crate::fault::VarsFault;
use crate::placeholder::placeholder_at;
use crate::table::{Table, value_at};
use bosh_yaml::{Copied, Node, Str};
use std::alloc::Global;

fn push_text(filled: &mut Vec<u8>, text: &[u8]) -> Result<(), VarsFault>
    requires { IsUtf8 text.now }
    ensures gives { Gives (λ _. filled.new.items) result (Ok (filled.old.items ++ text.now)) }
    ensures utf8 { IsUtf8 filled.old.items → OnOk result (IsUtf8 filled.new.items) }
{
    filled.extend_from_slice(text)?;
    Ok(())
}

// Adds the text of a value, which stands for a placeholder inside a longer text.
fn push_value(
    alloc: Global,
    filled: &mut Vec<u8>,
    name: &[u8],
    value: &Node,
) -> Result<(), VarsFault>
    requires { IsUtf8 name.now }
    ensures gives { Gives (λ _. filled.new.items) result (with_front filled.old.items (text_for name.now (tree_of value.now))) }
    ensures utf8 { IsUtf8 filled.old.items → OnOk result (IsUtf8 filled.new.items) }
{
    match value {
        Node::Null => push_text(filled, "".as_bytes()),
        Node::Bool(true) => push_text(filled, "true".as_bytes()),
        Node::Bool(false) => push_text(filled, "false".as_bytes()),
        Node::Int(n) => push_text(filled, itoa::Buffer::new().format(*n).as_bytes()),
        Node::Text(text) => push_text(filled, text.as_bytes()),
        Node::List(_) | Node::Map(_) => Err(VarsFault::NotText {
            name: Str::from_utf8(alloc, name)?,
        }),
    }
}

// A text in which each placeholder is replaced by its value's text. What was put in is not looked at again.
fn joined(alloc: Global, text: &[u8], values: &Table) -> Result<Str, VarsFault>
    requires { IsUtf8 text.now }
    ensures { Gives (λ s. s) result (joined_parts (found_in values.now) (parts text.now)) }
{
    let mut filled = Vec::new(alloc);
    let mut rest = text;
    while let Some((byte, after)) = rest.split_first() {
        match placeholder_at(rest) {
            Some((name, after)) => {
                let value = value_at(alloc, values, name)?;
                push_value(alloc, &mut filled, name, value)?;
                rest = after;
            }
            None => {
                filled.push(*byte)?;
                rest = after;
            }
        }
    }
    Ok(Str::from_utf8(alloc, filled.as_slice())?)
}

// The name of the placeholder that a text is, if it is one alone.
#[tactic(auto, using(crate::proofs::PlaceholderLemmas::only_names))]
pub(crate) fn only_name(text: &[u8]) -> Option<&[u8]>
    ensures name { option_map (λ name. name.now) result ≡ single_name (parts text.now) }
    ensures utf8 { IfSome result (λ name. IsUtf8 name.now) }
{
    let (name, rest) = placeholder_at(text)?;
    if rest.is_empty() {
        return Some(name);
    }
    None
}

// The node that a text becomes.
pub(crate) fn fill_text(alloc: Global, text: &Str, values: &Table) -> Result<Node, VarsFault>
    ensures { Gives tree_of result (filled_text (found_in values.now) (parts text.now)) }
{
    let text = text.as_bytes();
    match only_name(text) {
        Some(name) => Ok(value_at(alloc, values, name)?.copy(alloc)?),
        None => Ok(Node::Text(joined(alloc, text, values)?)),
    }
}
