//! The events of a text, line by line.

ghost use Rattle.std.specs.Prelude.{◌≡◌, ℕ, ◌+◌, ◌-◌, ◌<◌, ◌≤◌, ◌^◌, List, [], ◌++◌, length, ◌∷◌, map, Some, Ok};
ghost use Rattle.std.specs.Str.{is_utf8};
ghost use Rattle.bosh_yaml.specs.declared.block.Frame.{Frame};
ghost use Rattle.bosh_yaml.specs.Events.{content_line as content, end_by_mode, events_from, events_of as events_spelled, first_line as first, fixed_indent as fixed, is_marker as marker, is_readable as readable, literal_event, literal_line as literal, one_line, plain_line as plain};
ghost use Rattle.bosh_yaml.specs.Lines.{lines_of};
ghost use Rattle.bosh_yaml.specs.Scanning.{add_event, add_scanned, scan_in};
ghost use Rattle.bosh_yaml.specs.Result.{Gives, with_front};

use crate::block::{Frame, place_end};
use crate::content::take_line;
use crate::event::Event;
use crate::fault::ReadFault;
use crate::line::{begins, is_blank, is_clean, is_end, next_line, skip_line_ends, skip_spaces};
use crate::literal::{Header, indentation, is_spaces, literal_text};
use crate::plain::Leaf;
use crate::word::text_of;
use std::alloc::Global;
use std::collections::VecDeque;
use std::str;

/// Whether a literal is open.
#[derive(Clone, Copy)]
pub(crate) enum Mode {
    /// No line with content has come.
    Start,
    /// No literal is open.
    Outside,
    /// A literal is open, with its indentation once a line has fixed it.
    Literal(Header, Option<usize>),
}

#[tactic(auto, using(crate::proofs::TextLemmas::tests_text))]
fn is_text(line: &[u8]) -> bool
    ensures { result ≡ is_utf8 line.now }
{
    match str::from_utf8(line) {
        Ok(_) => true,
        Err(_) => false,
    }
}

fn is_readable(line: &[u8]) -> bool
    ensures { result ≡ readable line.now }
{
    is_text(line) && is_clean(line)
}

fn is_marker(line: &[u8]) -> bool
    ensures { result ≡ marker line.now }
{
    match line {
        [b'-', b'-', b'-', rest @ ..] => is_end(rest),
        _ => false,
    }
}

// A line outside a literal that is not blank.
fn content_line(
    alloc: Global,
    line: u32,
    bytes: &[u8],
    frames: &mut VecDeque<Frame>,
    events: &mut Vec<Event>,
) -> Result<Mode, ReadFault>
    requires { length bytes.now < 2 ^ 63 }
    ensures { Gives (λ mode. (events.new.items, record { frames = frames.new.items; mode = mode; body = [] })) result (add_scanned events.old.items (content line frames.old.items bytes.now)) }
{
    if begins(b'\t', skip_spaces(bytes)) {
        return Err(ReadFault::Syntax { line });
    }
    match take_line(alloc, line, bytes, frames, events)? {
        Some(header) => Ok(Mode::Literal(header, None)),
        None => Ok(Mode::Outside),
    }
}

// A line outside a literal.
fn plain_line(
    alloc: Global,
    mode: Mode,
    line: u32,
    bytes: &[u8],
    frames: &mut VecDeque<Frame>,
    events: &mut Vec<Event>,
) -> Result<Mode, ReadFault>
    requires { length bytes.now < 2 ^ 63 }
    ensures { Gives (λ next. (events.new.items, record { frames = frames.new.items; mode = next; body = [] })) result (add_scanned events.old.items (plain mode line frames.old.items bytes.now)) }
{
    if is_blank(bytes) {
        return Ok(mode);
    }
    content_line(alloc, line, bytes, frames, events)
}

// A line before the first with content.
fn first_line(
    alloc: Global,
    line: u32,
    bytes: &[u8],
    frames: &mut VecDeque<Frame>,
    events: &mut Vec<Event>,
) -> Result<Mode, ReadFault>
    requires { length bytes.now < 2 ^ 63 }
    ensures { Gives (λ mode. (events.new.items, record { frames = frames.new.items; mode = mode; body = [] })) result (add_scanned events.old.items (first line frames.old.items bytes.now)) }
{
    if is_marker(bytes) {
        return Ok(Mode::Outside);
    }
    plain_line(alloc, Mode::Start, line, bytes, frames, events)
}

// Adds the text of a literal whose lines have come.
fn push_literal(
    alloc: Global,
    header: Header,
    indent: Option<usize>,
    body: &[&[u8]],
    events: &mut Vec<Event>,
) -> Result<(), ReadFault>
    ensures { Gives (λ u. events.new.items) result (add_event events.old.items (literal_event header indent (map (λ l. l.now) body.now))) }
{
    let text = literal_text(alloc, header.chomping, indent, body)?;
    let text = text_of(header.line, text)?;
    events.push(Event::Scalar(Leaf::Text(text)))?;
    Ok(())
}

// The indentation of a literal after a line with content.
fn fixed_indent(line: u32, indent: Option<usize>, found: usize) -> Result<usize, ReadFault>
    ensures { Gives (λ n. Some n) result (fixed line indent found) }
{
    match indent {
        None => Ok(found),
        Some(indent) if indent <= found => Ok(indent),
        Some(_) => Err(ReadFault::Syntax { line }),
    }
}

// A line while a literal is open.
// Dear to prove: it takes the mode of the reader, an enum with what is gathered, apart and puts it together again.
fn literal_line<'a>(
    alloc: Global,
    header: Header,
    indent: Option<usize>,
    line: u32,
    bytes: &'a [u8],
    frames: &mut VecDeque<Frame>,
    events: &mut Vec<Event>,
    body: &mut Vec<&'a [u8]>,
) -> Result<Mode, ReadFault>
    requires { length bytes.now < 2 ^ 63 }
    ensures { Gives (λ mode. (events.new.items, record { frames = frames.new.items; mode = mode; body = map (λ l. l.now) body.new.items })) result (add_scanned events.old.items (literal header indent line frames.old.items (map (λ l. l.now) body.old.items) bytes.now)) }
{
    if is_spaces(bytes) {
        body.push(bytes)?;
        return Ok(Mode::Literal(header, indent));
    }
    let found = indentation(bytes);
    if header.owner < found {
        let fixed = fixed_indent(line, indent, found)?;
        body.push(bytes)?;
        return Ok(Mode::Literal(header, Some(fixed)));
    }
    push_literal(alloc, header, indent, body.as_slice(), events)?;
    body.clear();
    plain_line(alloc, Mode::Outside, line, bytes, frames, events)
}

// Any line, by what is open before it.
fn take_line_by<'a>(
    alloc: Global,
    mode: Mode,
    line: u32,
    bytes: &'a [u8],
    frames: &mut VecDeque<Frame>,
    events: &mut Vec<Event>,
    body: &mut Vec<&'a [u8]>,
) -> Result<Mode, ReadFault>
    requires { length bytes.now < 2 ^ 63 }
    ensures { Gives (λ next. (events.new.items, record { frames = frames.new.items; mode = next; body = map (λ l. l.now) body.new.items })) result (add_scanned events.old.items (one_line line (record { frames = frames.old.items; mode = mode; body = map (λ l. l.now) body.old.items }) bytes.now)) }
{
    if !is_readable(bytes) {
        return Err(ReadFault::Syntax { line });
    }
    match mode {
        Mode::Literal(header, indent) => literal_line(
            alloc, header, indent, line, bytes, frames, events, body,
        ),
        Mode::Start => {
            body.clear();
            first_line(alloc, line, bytes, frames, events)
        }
        Mode::Outside => {
            body.clear();
            plain_line(alloc, Mode::Outside, line, bytes, frames, events)
        }
    }
}

// The end of the text.
fn finish(
    alloc: Global,
    mode: Mode,
    mut frames: VecDeque<Frame>,
    events: &mut Vec<Event>,
    body: &[&[u8]],
) -> Result<(), ReadFault>
    ensures { Gives (λ u. events.new.items) result (with_front events.old.items (end_by_mode mode frames.items (map (λ l. l.now) body.now))) }
{
    if let Mode::Literal(header, indent) = mode {
        push_literal(alloc, header, indent, body, events)?;
    }
    place_end(&mut frames, events)?;
    Ok(())
}

// What is left of a text behind the empty lines at its front, unless they are lines of a literal.
fn skip_empty(mode: Mode, text: &[u8]) -> &[u8]
    ensures skipped { (line : ℕ) (frames : List Frame) (body : List (List ℕ)) → let scan = scan_in mode frames body in
        events_from line scan (lines_of text.now)
        ≡ events_from (line + (length text.now - length result.now)) scan (lines_of result.now) }
    ensures no_longer { length result.now ≤ length text.now }
{
    match mode {
        Mode::Literal(_, _) => text,
        Mode::Start => skip_line_ends(text),
        Mode::Outside => skip_line_ends(text),
    }
}

/// The events of a text of at most 1,048,576 bytes.
// Dear to prove: one loop over all lines, with the mode of the reader and all events alive.
pub(crate) fn events_of(alloc: Global, text: &[u8]) -> Result<Vec<Event>, ReadFault>
    requires { length text.now ≤ 1048576 }
    ensures { Gives (λ v. v.items) result (events_spelled text.now) }
{
    let mut frames = VecDeque::new(alloc);
    frames.push_front(Frame::Whole)?;
    let mut events = Vec::new(alloc);
    let mut body = Vec::new(alloc);
    let mut mode = Mode::Start;
    let mut line = 1u32;
    let mut rest = text;
    while let Some((bytes, after)) = next_line(rest) {
        mode = take_line_by(
            alloc,
            mode,
            line,
            bytes,
            &mut frames,
            &mut events,
            &mut body,
        )?;
        rest = skip_empty(mode, after);
        line += 1 + (after.len() - rest.len()) as u32;
    }
    finish(alloc, mode, frames, &mut events, body.as_slice())?;
    Ok(events)
}
