//! One line with content: dashes, then a key, a value or both.

ghost use Rattle.std.specs.Prelude.{◌≡◌, [], ◌<◌, ◌^◌, None, length};
ghost use Rattle.bosh_yaml.specs.Content.{add_events, begins_form as form_begins, chomping_of as chomping, content_at as content, entry_at as entry, flow_at as flow, items_at, key_at as keyed, key_or_scalar as either, literal_at as literal, scalar_at as scalar, value_at as value};
ghost use Rattle.bosh_yaml.specs.Result.{Gives};

use crate::bare::Place;
use crate::block::{Frame, place_dash, place_key, place_value};
use crate::event::Event;
use crate::fault::ReadFault;
use crate::flow::flow_form;
use crate::line::{is_end, is_gap, skip_spaces};
use crate::literal::{Chomping, Header};
use crate::word::{Word, word_at};
use std::alloc::Global;
use std::collections::VecDeque;

// Takes a line with content, and answers the literal that begins at its end.
pub(crate) fn take_line(
    alloc: Global,
    line: u32,
    bytes: &[u8],
    frames: &mut VecDeque<Frame>,
    events: &mut Vec<Event>,
) -> Result<Option<Header>, ReadFault>
    requires { length bytes.now < 2 ^ 63 }
    ensures { Gives (λ o. (events.new.items, (frames.new.items, o))) result (add_events events.old.items (items_at line None 0 frames.old.items bytes.now)) }
{
    let mut owner = None;
    let mut column = 0;
    let mut rest = bytes;
    while let Some((b, after)) = rest.split_first() {
        if *b == b' ' {
            column += 1;
            rest = after;
        } else if *b == b'-' && is_gap(after) {
            place_dash(line, column, frames, events)?;
            owner = Some(column);
            column += 1;
            rest = after;
        } else if *b == b'#' {
            return Ok(None);
        } else {
            return content_at(alloc, line, owner, column, rest, frames, events);
        }
    }
    Ok(None)
}

fn begins_form(b: u8) -> bool
    ensures { result ≡ form_begins b }
{
    matches!(b, b'|' | b'[' | b'{')
}

// What stands behind the dashes.
fn content_at(
    alloc: Global,
    line: u32,
    owner: Option<usize>,
    column: usize,
    bytes: &[u8],
    frames: &mut VecDeque<Frame>,
    events: &mut Vec<Event>,
) -> Result<Option<Header>, ReadFault>
    requires { column < 2 ^ 63 }
    ensures { Gives (λ o. (events.new.items, (frames.new.items, o))) result (add_events events.old.items (content line owner column frames.old.items bytes.now)) }
{
    match bytes.split_first() {
        Some((b, _)) if begins_form(*b) => value_at(
            alloc, line, owner, column, bytes, frames, events,
        ),
        _ => {
            let (word, rest) = word_at(alloc, Place::Block, line, bytes)?;
            key_or_scalar(alloc, line, column, word, rest, frames, events)
        }
    }
}

// A value: a literal, a flow form or a scalar.
fn value_at(
    alloc: Global,
    line: u32,
    owner: Option<usize>,
    column: usize,
    bytes: &[u8],
    frames: &mut VecDeque<Frame>,
    events: &mut Vec<Event>,
) -> Result<Option<Header>, ReadFault>
    ensures { Gives (λ o. (events.new.items, (frames.new.items, o))) result (add_events events.old.items (value line owner column frames.old.items bytes.now)) }
{
    match bytes.split_first() {
        Some((b'|', rest)) => literal_at(line, owner, column, rest, frames),
        Some((b'[' | b'{', _)) => flow_at(alloc, line, column, bytes, frames, events),
        _ => {
            let (word, rest) = word_at(alloc, Place::Block, line, bytes)?;
            scalar_at(line, column, word, rest, frames, events)
        }
    }
}

// A scalar is a key where `:` and the end or a space follow it.
fn key_or_scalar(
    alloc: Global,
    line: u32,
    column: usize,
    word: Word,
    rest: &[u8],
    frames: &mut VecDeque<Frame>,
    events: &mut Vec<Event>,
) -> Result<Option<Header>, ReadFault>
    requires { column < 2 ^ 63 }
    ensures { Gives (λ o. (events.new.items, (frames.new.items, o))) result (add_events events.old.items (either line column frames.old.items (word, rest.now))) }
{
    match rest.split_first() {
        Some((b':', after)) if is_gap(after) => {
            let key = word.key(line)?;
            place_key(line, column, key, frames, events)?;
            entry_at(alloc, line, column, after, frames, events)
        }
        _ => scalar_at(line, column, word, rest, frames, events),
    }
}

// What stands behind a key's `:`.
fn entry_at(
    alloc: Global,
    line: u32,
    column: usize,
    bytes: &[u8],
    frames: &mut VecDeque<Frame>,
    events: &mut Vec<Event>,
) -> Result<Option<Header>, ReadFault>
    requires { column < 2 ^ 63 }
    ensures { Gives (λ o. (events.new.items, (frames.new.items, o))) result (add_events events.old.items (entry line column frames.old.items bytes.now)) }
{
    if is_end(bytes) {
        return Ok(None);
    }
    value_at(
        alloc,
        line,
        Some(column),
        column + 1,
        skip_spaces(bytes),
        frames,
        events,
    )
}

fn scalar_at(
    line: u32,
    column: usize,
    word: Word,
    rest: &[u8],
    frames: &mut VecDeque<Frame>,
    events: &mut Vec<Event>,
) -> Result<Option<Header>, ReadFault>
    ensures { Gives (λ o. (events.new.items, (frames.new.items, o))) result (add_events events.old.items (scalar line column frames.old.items (word, rest.now))) }
{
    if !is_end(rest) {
        return Err(ReadFault::Syntax { line });
    }
    place_value(line, column, frames)?;
    events.push(Event::Scalar(word.leaf()))?;
    Ok(None)
}

fn flow_at(
    alloc: Global,
    line: u32,
    column: usize,
    bytes: &[u8],
    frames: &mut VecDeque<Frame>,
    events: &mut Vec<Event>,
) -> Result<Option<Header>, ReadFault>
    ensures { Gives (λ o. (events.new.items, (frames.new.items, o))) result (add_events events.old.items (flow line column frames.old.items bytes.now)) }
{
    place_value(line, column, frames)?;
    flow_form(alloc, line, bytes, events)?;
    Ok(None)
}

// A literal, from behind its `|`.
fn literal_at(
    line: u32,
    owner: Option<usize>,
    column: usize,
    bytes: &[u8],
    frames: &mut VecDeque<Frame>,
) -> Result<Option<Header>, ReadFault>
    ensures { Gives (λ o. ([], (frames.new.items, o))) result (literal line owner column frames.old.items bytes.now) }
{
    let Some(owner) = owner else {
        return Err(ReadFault::Syntax { line });
    };
    let chomping = chomping_of(line, bytes)?;
    place_value(line, column, frames)?;
    Ok(Some(Header {
        line,
        owner,
        chomping,
    }))
}

fn chomping_of(line: u32, bytes: &[u8]) -> Result<Chomping, ReadFault>
    ensures { Gives (λ c. c) result (chomping line bytes.now) }
{
    match bytes.split_first() {
        Some((b'-', rest)) if is_end(rest) => Ok(Chomping::Strip),
        _ if is_end(bytes) => Ok(Chomping::Clip),
        _ => Err(ReadFault::Syntax { line }),
    }
}
