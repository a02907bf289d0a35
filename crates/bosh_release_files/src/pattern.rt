//! Patterns of files.
ghost use Rattle.std.specs.Prelude.{◌≡◌, [], ◌∷◌, ◌++◌, IfOk, Ok, codes};
ghost use Rattle.std.specs.List.{list_any};
ghost use Rattle.std.specs.Option.{option_map};
ghost use Rattle.bosh_release_files.specs.Answer.{IsAnswer, each};
ghost use Rattle.bosh_release_files.specs.Pattern.{before, below_folder, exact, form_of, in_folder, is_folder, is_pattern_byte, is_plain, pattern_with, read_pattern};

use crate::ReleaseFault;
use crate::fault::{no_pattern, text_of};
use bosh_base::{Seq, Text};
use std::alloc::{AllocError, Global};

/// Which files a pattern takes.
#[derive(Drop)]
pub enum Form {
    /// `**/*`: every file.
    Every,
    /// `D/**/*`: every file whose path begins with this, which is `D/`.
    Below(Text),
    /// `D/*`: the files of this folder itself.
    In(Text),
    /// The file of this path.
    Exact(Text),
}

/// A pattern of files, as the spec of a package writes it.
#[derive(Drop)]
pub struct Pattern {
    pub text: Text,
    pub form: Form,
}

fn is_pattern_byte(byte: u8) -> bool
    ensures { result ≡ is_pattern_byte byte }
{
    byte == b'*' || byte == b'?' || byte == b'[' || byte == b'{'
}

fn has_pattern_byte(text: &[u8]) -> bool
    ensures { result ≡ list_any is_pattern_byte text.now }
{
    text.iter().any(|byte| is_pattern_byte(*byte))
}

fn is_plain(text: &[u8]) -> bool
    ensures { result ≡ is_plain text.now }
{
    !has_pattern_byte(text)
}

fn is_folder(name: &[u8]) -> bool
    ensures { result ≡ is_folder name.now }
{
    match name {
        [] => false,
        [_, ..] => is_plain(name),
    }
}

// What stands before an end of a text.
fn before<'a>(end: &[u8], text: &'a [u8]) -> Option<&'a [u8]>
    ensures { option_map (λ front. front.now) result ≡ before end.now text.now }
{
    text.strip_suffix(end)
}

fn exact(alloc: Global, text: &[u8]) -> Result<Option<Form>, AllocError>
    ensures { IfOk result (λ form. form ≡ exact text.now) }
{
    if is_plain(text) {
        Ok(Some(Form::Exact(text_of(alloc, text)?)))
    } else {
        Ok(None)
    }
}

fn in_folder(alloc: Global, text: &[u8]) -> Result<Option<Form>, AllocError>
    ensures { IfOk result (λ form. form ≡ in_folder text.now (before (codes "/*") text.now)) }
{
    match before(b"/*", text) {
        Some(folder) if is_folder(folder) => Ok(Some(Form::In(text_of(alloc, folder)?))),
        Some(_) => Ok(None),
        None => exact(alloc, text),
    }
}

fn front_of(alloc: Global, folder: &[u8]) -> Result<Text, AllocError>
    ensures { IfOk result (λ front. front ≡ folder.now ++ 47 ∷ []) }
{
    let mut front = Vec::with_capacity(alloc, folder.len())?;
    front.extend_from_slice(folder)?;
    front.push(b'/')?;
    Ok(Text::from(front))
}

fn below_folder(alloc: Global, text: &[u8]) -> Result<Option<Form>, AllocError>
    ensures { IfOk result (λ form. form ≡ below_folder text.now (before (codes "/**/*") text.now)) }
{
    match before(b"/**/*", text) {
        Some(folder) if is_folder(folder) => Ok(Some(Form::Below(front_of(alloc, folder)?))),
        Some(_) => Ok(None),
        None => in_folder(alloc, text),
    }
}

fn form_of(alloc: Global, text: &[u8]) -> Result<Option<Form>, AllocError>
    ensures { IfOk result (λ form. form ≡ form_of text.now) }
{
    if text == b"**/*".as_slice() {
        Ok(Some(Form::Every))
    } else {
        below_folder(alloc, text)
    }
}

fn read_pattern(alloc: Global, text: &[u8]) -> Result<Pattern, ReleaseFault>
    ensures { IsAnswer result (read_pattern text.now) }
{
    match form_of(alloc, text)? {
        Some(form) => with_text(alloc, form, text),
        None => no_pattern(alloc, text),
    }
}

fn with_text(alloc: Global, form: Form, text: &[u8]) -> Result<Pattern, ReleaseFault>
    ensures { IsAnswer result (Ok (pattern_with text.now form)) }
{
    let text = text_of(alloc, text)?;
    Ok(Pattern { text, form })
}

/// What each text is as a pattern.
pub(crate) fn read_patterns(alloc: Global, texts: &[Text]) -> Result<Seq<Pattern>, ReleaseFault>
    ensures { IsAnswer result (each read_pattern texts.now) }
{
    let mut patterns = Vec::new(alloc);
    for text in texts {
        patterns.push(read_pattern(alloc, text.as_slice())?)?;
    }
    Ok(Seq::from(patterns))
}
