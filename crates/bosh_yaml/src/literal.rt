//! Literals: texts of several lines.

ghost use Rattle.std.specs.Prelude.{◌≡◌, ◌≤◌, ◌++◌, length, map, IfOk, OnOk};
ghost use Rattle.bosh_yaml.specs.Literal.{body_text as texts, chomped_text, indentation as indent_of, is_spaces as spaces, line_ends, literal_text as text_of, without_spaces as unindented};

use std::alloc::{AllocError, Global};

/// What follows a literal's last line.
#[derive(Clone, Copy)]
pub(crate) enum Chomping {
    /// One LF, where there is any line.
    Clip,
    /// Nothing.
    Strip,
}

/// The beginning of a literal: its line, the column of the dash or key that it belongs to, and its chomping.
#[derive(Clone, Copy)]
pub(crate) struct Header {
    pub(crate) line: u32,
    pub(crate) owner: usize,
    pub(crate) chomping: Chomping,
}

// How many spaces stand at the front of a line.
pub(crate) fn indentation(line: &[u8]) -> usize
    ensures value { result ≡ indent_of line.now }
    ensures within { result ≤ length line.now }
{
    let mut rest = line;
    let mut count = 0;
    while let [b' ', after @ ..] = rest {
        rest = after;
        count += 1;
    }
    count
}

// Whether a line holds spaces alone.
pub(crate) fn is_spaces(line: &[u8]) -> bool
    ensures { result ≡ spaces line.now }
{
    for b in line {
        if *b != b' ' {
            return false;
        }
    }
    true
}

// A line without so many spaces at its front.
fn without_spaces(count: usize, line: &[u8]) -> &[u8]
    ensures { result.now ≡ unindented count line.now }
{
    let mut rest = line;
    let mut left = count;
    while left > 0 {
        match rest.split_first() {
            Some((b' ', after)) => rest = after,
            _ => return rest,
        }
        left -= 1;
    }
    rest
}

#[tactic(auto, using(crate::proofs::LiteralLemmas::line_ends_more))]
fn push_line_ends(text: &mut Vec<u8>, count: usize) -> Result<(), AllocError>
    ensures { OnOk result (text.new.items ≡ text.old.items ++ line_ends count) }
{
    let mut left = count;
    while left > 0 {
        text.push(b'\n')?;
        left -= 1;
    }
    Ok(())
}

// The lines without their indentation, joined by LF; empty lines at the end are dropped.
fn body_text(alloc: Global, indent: usize, lines: &[&[u8]]) -> Result<Vec<u8>, AllocError>
    ensures { IfOk result (λ v. v.items ≡ texts indent 0 (map (λ l. l.now) lines.now)) }
{
    let mut text = Vec::new(alloc);
    let mut ends = 0;
    for line in lines {
        let kept = without_spaces(indent, line);
        if kept.is_empty() {
            ends += 1;
        } else {
            push_line_ends(&mut text, ends)?;
            text.extend_from_slice(kept)?;
            ends = 1;
        }
    }
    Ok(text)
}

// The text of a literal, whose indentation is known where a line has other content than spaces.
pub(crate) fn literal_text(
    alloc: Global,
    chomping: Chomping,
    indent: Option<usize>,
    lines: &[&[u8]],
) -> Result<Vec<u8>, AllocError>
    ensures { IfOk result (λ v. v.items ≡ text_of chomping indent (map (λ l. l.now) lines.now)) }
{
    let Some(indent) = indent else {
        return Ok(Vec::new(alloc));
    };
    let mut text = body_text(alloc, indent, lines)?;
    match chomping {
        Chomping::Clip if !text.is_empty() => text.push(b'\n')?,
        _ => {}
    }
    Ok(text)
}
