//! Fronts of a text.
ghost use Rattle.std.specs.Prelude.{◌≡◌, ◌==◌, ◌<◌, ◌≤◌, IfSome, length, option_map, position};
ghost use Rattle.std.specs.Option.{option_copied};
ghost use Rattle.bosh_ip.specs.Bytes.{without_leading};
ghost use Rattle.bosh_template.specs.Grammar.{opens};
ghost use Rattle.bosh_template.specs.Reading.{behind, cut_at, literal_len, quoted_at};

/// What follows a word.
pub(crate) fn behind<'a>(word: &[u8], text: &'a [u8]) -> Option<&'a [u8]>
    ensures { option_copied result ≡ behind word.now text.now }
{
    text.strip_prefix(word)
}

// The place of the first such byte.
fn place_of(text: &[u8], byte: u8) -> Option<usize>
    ensures { result ≡ position (λ b. b == byte) text.now }
{
    text.iter().position(|b| *b == byte)
}

/// What stands before the first such byte, and what follows that byte.
pub(crate) fn cut_at(byte: u8, text: &[u8]) -> Option<(&[u8], &[u8])>
    ensures read { option_map (λ read. (read.0.now, read.1.now)) result ≡ cut_at byte text.now }
    ensures shorter { IfSome result (λ read. length read.1.now < length text.now) }
{
    match place_of(text, byte) {
        Some(place) => Some((&text[..place], &text[place + 1..])),
        None => None,
    }
}

/// A text in quotes.
pub(crate) fn quoted_at(text: &[u8]) -> Option<(&[u8], &[u8])>
    ensures { option_map (λ read. (read.0.now, read.1.now)) result ≡ quoted_at text.now }
{
    match text {
        [quote, rest @ ..] if *quote == b'"' || *quote == b'\'' => cut_at(*quote, rest),
        _ => None,
    }
}

/// The text without the spaces at its front.
pub(crate) fn trim_start(mut text: &[u8]) -> &[u8]
    ensures { result.now ≡ without_leading 32 text.now }
{
    while let [b' ', rest @ ..] = text {
        text = rest;
    }
    text
}

/// Whether a text begins with `<%`.
pub(crate) fn opens(text: &[u8]) -> bool
    ensures { result ≡ opens text.now }
{
    match text {
        [first, second, ..] => *first == b'<' && *second == b'%',
        _ => false,
    }
}

/// How many bytes stand before the first `<%`.
pub(crate) fn literal_len(text: &[u8]) -> usize
    ensures length { result ≡ literal_len text.now }
    ensures within { result ≤ length text.now }
{
    let mut len = 0;
    while len < text.len() && !opens(&text[len..]) {
        len += 1;
    }
    len
}
