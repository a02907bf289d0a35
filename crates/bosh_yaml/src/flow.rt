//! Flow forms: lists and mappings on one line.

ghost use Rattle.std.specs.Prelude.{◌≡◌, ◌<◌, ◌++◌, ◌≤◌, ◌∷◌, [], List, length, IfOk};
ghost use Rattle.bosh_yaml.specs.declared.flow.Nest.TheVariants.{BeforeForm};
ghost use Rattle.bosh_yaml.specs.declared.flow.Nest.{Nest};
ghost use Rattle.bosh_yaml.specs.declared.flow.Sign.TheVariants.{Key, OpenList, OpenMap, Scalar};
ghost use Rattle.bosh_yaml.specs.Flow.{after_key, after_turn, after_value, close_list, close_map, comma as commas, ends_key as ends, form, form_of, is_whole as whole, sign_at as sign_from, sign_of, signs_of, turn as turns, word_sign};
ghost use Rattle.bosh_yaml.specs.Result.{Gives, with_front};

use crate::bare::Place;
use crate::event::Event;
use crate::fault::ReadFault;
use crate::line::{begins, is_end, is_gap, skip_spaces};
use crate::plain::Leaf;
use crate::text::Str;
use crate::word::{Word, word_at};
use std::alloc::Global;
use std::collections::VecDeque;

/// What stands in a flow form, from left to right.
#[derive(Drop)]
pub(crate) enum Sign {
    OpenList,
    OpenMap,
    CloseList,
    CloseMap,
    Comma,
    Scalar(Leaf),
    Key(Str),
}

/// Where one stands in a flow form.
#[derive(Clone, Copy)]
pub(crate) enum Nest {
    BeforeForm,
    AfterForm,
    BeforeItem,
    AfterItem,
    BeforeKey,
    AfterKey,
    AfterEntry,
}

// Whether a key may end before these bytes, which follow its `:`.
fn ends_key(bytes: &[u8]) -> bool
    ensures { result ≡ ends bytes.now }
{
    is_gap(bytes) || begins(b',', bytes) || begins(b'}', bytes)
}

fn bracket(b: u8) -> Option<Sign>
    ensures { result ≡ sign_of b }
{
    match b {
        b'[' => Some(Sign::OpenList),
        b']' => Some(Sign::CloseList),
        b'{' => Some(Sign::OpenMap),
        b'}' => Some(Sign::CloseMap),
        b',' => Some(Sign::Comma),
        _ => None,
    }
}

// The sign at the front of the bytes, and what follows it.
fn sign_at(alloc: Global, line: u32, bytes: &[u8]) -> Result<(Sign, &[u8]), ReadFault>
    ensures gives { Gives (λ p. (p.0, p.1.now)) result (sign_from line bytes.now) }
    ensures shorter { IfOk result (λ p. length p.1.now < length bytes.now) }
{
    let Some((first, rest)) = bytes.split_first() else {
        return Err(ReadFault::Syntax { line });
    };
    if let Some(sign) = bracket(*first) {
        return Ok((sign, rest));
    }
    let (word, rest) = word_at(alloc, Place::Flow, line, bytes)?;
    word_sign(line, word, rest)
}

// A scalar is a key where `:` follows it, and else a value.
fn word_sign(line: u32, word: Word, rest: &[u8]) -> Result<(Sign, &[u8]), ReadFault>
    ensures gives { Gives (λ p. (p.0, p.1.now)) result (word_sign line (word, rest.now)) }
    ensures no_longer { IfOk result (λ p. length p.1.now ≤ length rest.now) }
{
    if let Some((b':', after)) = rest.split_first() {
        if !ends_key(after) {
            return Err(ReadFault::Syntax { line });
        }
        return Ok((Sign::Key(word.key(line)?), after));
    }
    Ok((Sign::Scalar(word.leaf()), rest))
}

// The signs up to the line's end.
fn signs(alloc: Global, line: u32, bytes: &[u8]) -> Result<Vec<Sign>, ReadFault>
    ensures { Gives (λ v. v.items) result (signs_of (length bytes.now) line bytes.now) }
{
    let mut signs = Vec::new(alloc);
    let mut rest = bytes;
    while !is_end(rest) {
        let (sign, after) = sign_at(alloc, line, skip_spaces(rest))?;
        signs.push(sign)?;
        rest = after;
    }
    Ok(signs)
}

fn after_value(line: u32, nest: Nest) -> Result<Nest, ReadFault>
    ensures { Gives (λ n. n) result (after_value line nest) }
{
    match nest {
        Nest::BeforeForm => Ok(Nest::AfterForm),
        Nest::BeforeItem => Ok(Nest::AfterItem),
        Nest::AfterKey => Ok(Nest::AfterEntry),
        _ => Err(ReadFault::Syntax { line }),
    }
}

fn after_key(line: u32, nest: Nest) -> Result<Nest, ReadFault>
    ensures { Gives (λ n. n) result (after_key line nest) }
{
    match nest {
        Nest::BeforeKey => Ok(Nest::AfterKey),
        _ => Err(ReadFault::Syntax { line }),
    }
}

fn comma(
    line: u32,
    nest: Nest,
    nests: &mut VecDeque<Nest>,
    events: &mut Vec<Event>,
) -> Result<(), ReadFault>
    ensures { Gives (λ u. (events.new.items, nests.new.items)) result (after_turn events.old.items nests.old.items (commas line nest)) }
{
    match nest {
        Nest::AfterItem => nests.push_front(Nest::BeforeItem)?,
        Nest::AfterEntry => nests.push_front(Nest::BeforeKey)?,
        Nest::AfterKey => {
            events.push(Event::Scalar(Leaf::Null))?;
            nests.push_front(Nest::BeforeKey)?;
        }
        _ => return Err(ReadFault::Syntax { line }),
    }
    Ok(())
}

fn close_list(line: u32, nest: Nest, events: &mut Vec<Event>) -> Result<(), ReadFault>
    ensures { (nests : List Nest) → Gives (λ u. (events.new.items, nests)) result (after_turn events.old.items nests (close_list line nest)) }
{
    match nest {
        Nest::BeforeItem | Nest::AfterItem => {
            events.push(Event::Close)?;
            Ok(())
        }
        _ => Err(ReadFault::Syntax { line }),
    }
}

fn close_map(line: u32, nest: Nest, events: &mut Vec<Event>) -> Result<(), ReadFault>
    ensures { (nests : List Nest) → Gives (λ u. (events.new.items, nests)) result (after_turn events.old.items nests (close_map line nest)) }
{
    match nest {
        Nest::BeforeKey | Nest::AfterEntry => {
            events.push(Event::Close)?;
            Ok(())
        }
        Nest::AfterKey => {
            events.push(Event::Scalar(Leaf::Null))?;
            events.push(Event::Close)?;
            Ok(())
        }
        _ => Err(ReadFault::Syntax { line }),
    }
}

fn open_list(
    line: u32,
    nest: Nest,
    nests: &mut VecDeque<Nest>,
    events: &mut Vec<Event>,
) -> Result<(), ReadFault>
    ensures { Gives (λ u. (events.new.items, nests.new.items)) result (after_turn events.old.items nests.old.items (turns line nest OpenList)) }
{
    nests.push_front(after_value(line, nest)?)?;
    nests.push_front(Nest::BeforeItem)?;
    events.push(Event::OpenList)?;
    Ok(())
}

fn open_map(
    line: u32,
    nest: Nest,
    nests: &mut VecDeque<Nest>,
    events: &mut Vec<Event>,
) -> Result<(), ReadFault>
    ensures { Gives (λ u. (events.new.items, nests.new.items)) result (after_turn events.old.items nests.old.items (turns line nest OpenMap)) }
{
    nests.push_front(after_value(line, nest)?)?;
    nests.push_front(Nest::BeforeKey)?;
    events.push(Event::OpenMap)?;
    Ok(())
}

fn take_scalar(
    line: u32,
    nest: Nest,
    leaf: Leaf,
    nests: &mut VecDeque<Nest>,
    events: &mut Vec<Event>,
) -> Result<(), ReadFault>
    ensures { Gives (λ u. (events.new.items, nests.new.items)) result (after_turn events.old.items nests.old.items (turns line nest (Scalar leaf))) }
{
    events.push(Event::Scalar(leaf))?;
    nests.push_front(after_value(line, nest)?)?;
    Ok(())
}

fn take_key(
    line: u32,
    nest: Nest,
    key: Str,
    nests: &mut VecDeque<Nest>,
    events: &mut Vec<Event>,
) -> Result<(), ReadFault>
    ensures { Gives (λ u. (events.new.items, nests.new.items)) result (after_turn events.old.items nests.old.items (turns line nest (Key key))) }
{
    events.push(Event::Key { line, key })?;
    nests.push_front(after_key(line, nest)?)?;
    Ok(())
}

// Takes one sign where one stands.
fn turn(
    line: u32,
    nest: Nest,
    sign: Sign,
    nests: &mut VecDeque<Nest>,
    events: &mut Vec<Event>,
) -> Result<(), ReadFault>
    ensures { Gives (λ u. (events.new.items, nests.new.items)) result (after_turn events.old.items nests.old.items (turns line nest sign)) }
{
    match sign {
        Sign::OpenList => open_list(line, nest, nests, events),
        Sign::OpenMap => open_map(line, nest, nests, events),
        Sign::Scalar(leaf) => take_scalar(line, nest, leaf, nests, events),
        Sign::Key(key) => take_key(line, nest, key, nests, events),
        Sign::Comma => comma(line, nest, nests, events),
        Sign::CloseList => close_list(line, nest, events),
        Sign::CloseMap => close_map(line, nest, events),
    }
}

// Adds the events of the flow form that the bytes are.
pub(crate) fn flow_form(
    alloc: Global,
    line: u32,
    bytes: &[u8],
    events: &mut Vec<Event>,
) -> Result<(), ReadFault>
    ensures { Gives (λ u. events.new.items) result (with_front events.old.items (form_of line bytes.now)) }
{
    let signs = signs(alloc, line, bytes)?;
    take_signs(alloc, line, signs, events)
}

// Dear to prove: one loop over the signs of a line, each an enum with a text of its own.
fn take_signs(
    alloc: Global,
    line: u32,
    signs: Vec<Sign>,
    events: &mut Vec<Event>,
) -> Result<(), ReadFault>
    ensures { Gives (λ u. events.new.items) result (with_front events.old.items (form line (BeforeForm ∷ []) signs.items)) }
{
    let mut nests = VecDeque::new(alloc);
    nests.push_front(Nest::BeforeForm)?;
    for sign in signs {
        let Some(nest) = nests.pop_front() else {
            return Err(ReadFault::Syntax { line });
        };
        turn(line, nest, sign, &mut nests, events)?;
    }
    if is_whole(&nests) {
        Ok(())
    } else {
        Err(ReadFault::Syntax { line })
    }
}

fn is_whole(nests: &VecDeque<Nest>) -> bool
    ensures { result ≡ whole nests.now.items }
{
    nests.len() == 1 && matches!(nests.front(), Some(Nest::AfterForm))
}
