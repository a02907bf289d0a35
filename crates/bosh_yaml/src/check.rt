//! What holds of the events of a text before a node is made of them.

ghost use Rattle.std.specs.Prelude.{◌≡◌, ◌+◌, ◌<◌, ◌≤◌, ◌^◌, [], ◌∷◌, List, length, map, max, IfOk};
ghost use Rattle.bosh_yaml.specs.declared.event.Event.{Event};
ghost use Rattle.bosh_yaml.specs.declared.event.Event.TheVariants.{Key};
ghost use Rattle.bosh_yaml.specs.Seen.{keys_of_set, line_or_else};
ghost use Rattle.bosh_yaml.specs.Nodes.{line_of_repeat, nesting as nests, open_after as opened};

use crate::event::Event;
use crate::hash::hash_of;
use crate::text::Str;
use std::alloc::{AllocError, Global};
use std::collections::{BTreeSet, VecDeque};

// How many collections are open after an event.
fn open_after(before: usize, event: &Event) -> usize
    requires { before < 2 ^ 63 }
    ensures value { result ≡ opened before event.now }
    ensures next { result ≤ before + 1 }
{
    match event {
        Event::Scalar(_) | Event::Key { .. } => before,
        Event::OpenList | Event::OpenMap => before + 1,
        Event::Close => before.saturating_sub(1),
    }
}

// How deep collections nest.
#[tactic(auto, using(crate::proofs::NestingLemmas::nesting_at_least))]
pub(crate) fn nesting(events: &[Event]) -> usize
    requires { length events.now < 2 ^ 63 }
    ensures { result ≡ nests 0 events.now }
{
    let mut open = 0usize;
    let mut deepest = 0usize;
    for event in events {
        open = open_after(open, event);
        deepest = deepest.max(open);
    }
    deepest
}

// Takes one event, and answers the line of a key that stands a second time.
#[tactic(auto, using(crate::proofs::SeenLemmas::seen))]
fn take_event<'a>(
    alloc: Global,
    event: &'a Event,
    seen: &mut VecDeque<BTreeSet<(u64, &'a [u8])>>,
) -> Result<Option<u32>, AllocError>
    ensures { IfOk result (λ found. (rest : List Event) → line_of_repeat (map keys_of_set seen.old.items) (event.now ∷ rest) ≡ line_or_else found (line_of_repeat (map keys_of_set seen.new.items) rest)) }
{
    match event {
        Event::Scalar(_) => Ok(None),
        Event::OpenList | Event::OpenMap => {
            seen.push_front(BTreeSet::new(alloc))?;
            Ok(None)
        }
        Event::Close => {
            let _ = seen.pop_front();
            Ok(None)
        }
        Event::Key { line, key } => take_key(*line, key, seen),
    }
}

// Takes a key, and answers its line where it stands a second time.
#[tactic(auto, using(crate::proofs::SeenLemmas::seen))]
fn take_key<'a>(
    line: u32,
    key: &'a Str,
    seen: &mut VecDeque<BTreeSet<(u64, &'a [u8])>>,
) -> Result<Option<u32>, AllocError>
    ensures { IfOk result (λ found. (rest : List Event) → line_of_repeat (map keys_of_set seen.old.items) (Key line key.now ∷ rest) ≡ line_or_else found (line_of_repeat (map keys_of_set seen.new.items) rest)) }
{
    let Some(mut keys) = seen.pop_front() else {
        return Ok(None);
    };
    let bytes = key.as_bytes();
    let added = keys.insert((hash_of(bytes), bytes))?;
    seen.push_front(keys)?;
    Ok(if added { None } else { Some(line) })
}

// The line of the first key that stands a second time in its mapping.
pub(crate) fn first_repeated(alloc: Global, events: &[Event]) -> Result<Option<u32>, AllocError>
    ensures { IfOk result (λ line. line ≡ line_of_repeat [] events.now) }
{
    let mut seen = VecDeque::new(alloc);
    for event in events {
        if let Some(line) = take_event(alloc, event, &mut seen)? {
            return Ok(Some(line));
        }
    }
    Ok(None)
}
