//! Block mappings and sequences, by their columns.

ghost use Rattle.std.specs.Prelude.{◌≡◌, ◌++◌, ◌∷◌, [], ℕ, List, OnOk};
ghost use Rattle.bosh_yaml.specs.declared.block.Frame.{Frame};
ghost use Rattle.bosh_yaml.specs.declared.block.Frame.TheVariants.{Entry, Item};
ghost use Rattle.bosh_yaml.specs.declared.event.Event.TheVariants.{Key, OpenList, OpenMap};
ghost use Rattle.bosh_yaml.specs.Block.{after_events, closing, nothing, place_dash as dash_placed, place_end as end_placed, place_key as key_placed, place_value as value_placed};
ghost use Rattle.bosh_yaml.specs.Fit.{placed_dash, placed_key, with_key};
ghost use Rattle.bosh_yaml.specs.Result.{Gives};

use crate::event::Event;
use crate::fault::ReadFault;
use crate::plain::Leaf;
use crate::text::Str;
use std::alloc::AllocError;
use std::collections::VecDeque;

/// What is open. Columns are counted from 0.
#[derive(Clone, Copy)]
pub(crate) enum Frame {
    /// No node has come.
    Whole,
    /// The node of the text is whole.
    Done,
    /// A dash stands at this column, and its item has not come.
    Item(usize),
    /// A sequence at this column, whose last item is whole.
    List(usize),
    /// A key stands at this column, and its value has not come.
    Entry(usize),
    /// A mapping at this column, whose last value is whole.
    Map(usize),
}

fn push_null(events: &mut Vec<Event>) -> Result<(), AllocError>
    ensures { OnOk result (events.new.items ≡ events.old.items ++ nothing ∷ []) }
{
    events.push(Event::Scalar(Leaf::Null))?;
    Ok(())
}

fn open_list(
    column: usize,
    parent: Frame,
    frames: &mut VecDeque<Frame>,
    events: &mut Vec<Event>,
) -> Result<(), AllocError>
    ensures events { OnOk result (events.new.items ≡ events.old.items ++ OpenList ∷ []) }
    ensures frames { OnOk result (frames.new.items ≡ Item column ∷ parent ∷ frames.old.items) }
{
    frames.push_front(parent)?;
    frames.push_front(Frame::Item(column))?;
    events.push(Event::OpenList)?;
    Ok(())
}

fn open_map(
    line: u32,
    column: usize,
    key: Str,
    parent: Frame,
    frames: &mut VecDeque<Frame>,
    events: &mut Vec<Event>,
) -> Result<(), AllocError>
    ensures events { OnOk result (events.new.items ≡ events.old.items ++ OpenMap ∷ Key line key ∷ []) }
    ensures frames { OnOk result (frames.new.items ≡ Entry column ∷ parent ∷ frames.old.items) }
{
    events.push(Event::OpenMap)?;
    events.push(Event::Key { line, key })?;
    frames.push_front(parent)?;
    frames.push_front(Frame::Entry(column))?;
    Ok(())
}

// Closes a frame to which nothing more belongs.
fn close(frame: Frame, events: &mut Vec<Event>) -> Result<(), AllocError>
    ensures { OnOk result (events.new.items ≡ events.old.items ++ closing frame) }
{
    match frame {
        Frame::Done => Ok(()),
        Frame::Whole => push_null(events),
        Frame::Item(_) | Frame::Entry(_) => {
            push_null(events)?;
            events.push(Event::Close)?;
            Ok(())
        }
        Frame::List(_) | Frame::Map(_) => {
            events.push(Event::Close)?;
            Ok(())
        }
    }
}

/// What a dash or a key does at the innermost frame.
#[derive(Clone, Copy)]
pub(crate) enum Fit {
    /// A collection begins, and this is then the frame around it.
    Begins(Frame),
    /// The collection that is open here goes on.
    Continues,
    /// It goes on after null, since its last item or value has not come.
    Fills,
    /// The frame is closed.
    Closes,
    /// The text has no form here.
    Refused,
}

// What a dash at a column does.
fn dash_fit(column: usize, frame: Frame) -> Fit
    ensures { (line : ℕ) (frames : List Frame) → dash_placed line column (frame ∷ frames) ≡ placed_dash line column frame frames result }
{
    match frame {
        Frame::Whole => Fit::Begins(Frame::Done),
        Frame::Done => Fit::Refused,
        Frame::Item(at) if at < column => Fit::Begins(Frame::List(at)),
        Frame::Entry(at) if at <= column => Fit::Begins(Frame::Map(at)),
        Frame::Item(at) if at == column => Fit::Fills,
        Frame::List(at) if at == column => Fit::Continues,
        _ => Fit::Closes,
    }
}

// What a key at a column does.
fn key_fit(column: usize, frame: Frame) -> Fit
    ensures { (line : ℕ) (key : List ℕ) (frames : List Frame) → key_placed line column key (frame ∷ frames) ≡ placed_key line column key frame frames result }
{
    match frame {
        Frame::Whole => Fit::Begins(Frame::Done),
        Frame::Done => Fit::Refused,
        Frame::Item(at) if at < column => Fit::Begins(Frame::List(at)),
        Frame::Entry(at) if at < column => Fit::Begins(Frame::Map(at)),
        Frame::Entry(at) if at == column => Fit::Fills,
        Frame::Map(at) if at == column => Fit::Continues,
        _ => Fit::Closes,
    }
}

// Places a dash at a column.
// Dear to prove: it takes the open frames apart, an enum of five, and puts them together again.
pub(crate) fn place_dash(
    line: u32,
    column: usize,
    frames: &mut VecDeque<Frame>,
    events: &mut Vec<Event>,
) -> Result<(), ReadFault>
    ensures { Gives (λ u. (events.new.items, frames.new.items)) result (after_events events.old.items (dash_placed line column frames.old.items)) }
{
    while let Some(frame) = frames.pop_front() {
        match dash_fit(column, frame) {
            Fit::Begins(parent) => return Ok(open_list(column, parent, frames, events)?),
            Fit::Continues => return Ok(frames.push_front(Frame::Item(column))?),
            Fit::Fills => {
                push_null(events)?;
                return Ok(frames.push_front(Frame::Item(column))?);
            }
            Fit::Closes => close(frame, events)?,
            Fit::Refused => return Err(ReadFault::Syntax { line }),
        }
    }
    Err(ReadFault::Syntax { line })
}

// Places a key at a column.
pub(crate) fn place_key(
    line: u32,
    column: usize,
    key: Str,
    frames: &mut VecDeque<Frame>,
    events: &mut Vec<Event>,
) -> Result<(), ReadFault>
    ensures { Gives (λ u. (events.new.items, frames.new.items)) result (after_events events.old.items (key_placed line column key frames.old.items)) }
{
    match parent_of_key(line, column, frames, events)? {
        Some(parent) => Ok(open_map(line, column, key, parent, frames, events)?),
        None => Ok(next_key(line, key, column, frames, events)?),
    }
}

// Closes what a key at a column does not belong to; the frame around the mapping that begins with the key, if one does.
fn parent_of_key(
    line: u32,
    column: usize,
    frames: &mut VecDeque<Frame>,
    events: &mut Vec<Event>,
) -> Result<Option<Frame>, ReadFault>
    ensures { (key : List ℕ) → Gives (λ parent. with_key line column key events.new.items frames.new.items parent) result (after_events events.old.items (key_placed line column key frames.old.items)) }
{
    while let Some(frame) = frames.pop_front() {
        match key_fit(column, frame) {
            Fit::Begins(parent) => return Ok(Some(parent)),
            Fit::Continues => return Ok(None),
            Fit::Fills => {
                push_null(events)?;
                return Ok(None);
            }
            Fit::Closes => close(frame, events)?,
            Fit::Refused => return Err(ReadFault::Syntax { line }),
        }
    }
    Err(ReadFault::Syntax { line })
}

fn next_key(
    line: u32,
    key: Str,
    at: usize,
    frames: &mut VecDeque<Frame>,
    events: &mut Vec<Event>,
) -> Result<(), AllocError>
    ensures events { OnOk result (events.new.items ≡ events.old.items ++ Key line key ∷ []) }
    ensures frames { OnOk result (frames.new.items ≡ Entry at ∷ frames.old.items) }
{
    events.push(Event::Key { line, key })?;
    frames.push_front(Frame::Entry(at))?;
    Ok(())
}

// Places a scalar, a flow form or a literal at a column.
pub(crate) fn place_value(
    line: u32,
    column: usize,
    frames: &mut VecDeque<Frame>,
) -> Result<(), ReadFault>
    ensures { Gives (λ u. frames.new.items) result (value_placed line column frames.old.items) }
{
    let whole = match frames.pop_front() {
        Some(Frame::Whole) => Frame::Done,
        Some(Frame::Item(at)) if at < column => Frame::List(at),
        Some(Frame::Entry(at)) if at < column => Frame::Map(at),
        _ => return Err(ReadFault::Syntax { line }),
    };
    frames.push_front(whole)?;
    Ok(())
}

// Closes all at the end of the text.
pub(crate) fn place_end(
    frames: &mut VecDeque<Frame>,
    events: &mut Vec<Event>,
) -> Result<(), AllocError>
    ensures { OnOk result (events.new.items ≡ events.old.items ++ end_placed frames.old.items) }
{
    while let Some(frame) = frames.pop_front() {
        close(frame, events)?;
    }
    Ok(())
}
