//! Lookups at the front of a text.
ghost use Rattle.std.specs.Prelude.{◌≡◌, option_map};
ghost use Rattle.std.specs.Option.{option_copied};
ghost use Rattle.std.specs.Str.{all_ascii_digits, bytes_eq};
ghost use Rattle.bosh_yaml.specs.Scalar.{digits_of, is_counting as counts};
ghost use Rattle.bosh_template.specs.Grammar.{is_plain, word_spelling};
ghost use Rattle.bosh_template.specs.Piece.{part};
ghost use Rattle.bosh_template.specs.Reading.{all_addrs_at, as_word, fallback_end, in_link_at, index_of, linked_at, lookup_at, one_addr_at, part_at, plain_end, property_at, quoted_end, tag_at, word_at};

use crate::SpecWord;
use crate::cut::{behind, cut_at, literal_len, opens, quoted_at, trim_start};
use crate::piece::Piece;
use std::str;

fn is_word(text: &[u8], word: &[u8]) -> bool
    ensures { result ≡ bytes_eq text.now word.now }
{
    text == word
}

// Whether these are digits of which the first is not 0.
fn is_counting(digits: &[u8]) -> bool
    ensures { result ≡ counts digits.now }
{
    match digits {
        [first, rest @ ..] => *first >= b'1' && *first <= b'9' && are_digits(rest),
        [] => false,
    }
}

fn are_digits(bytes: &[u8]) -> bool
    ensures { result ≡ all_ascii_digits bytes.now }
{
    bytes.iter().all(|b| b.is_ascii_digit())
}

fn digits_of(text: &[u8]) -> &[u8]
    ensures { result.now ≡ digits_of text.now }
{
    match text {
        [b'-', digits @ ..] => digits,
        _ => text,
    }
}

// Whether a word is `true`, `false` or an integer.
fn is_plain(word: &[u8]) -> bool
    ensures { result ≡ is_plain word.now }
{
    is_word(word, b"true")
        || is_word(word, b"false")
        || is_word(word, b"0")
        || is_counting(digits_of(word))
}

// A text in quotes and a closing parenthesis.
#[tactic(auto, unfolding(crate::specs::Reading::quoted_end))]
fn quoted_end(text: &[u8]) -> Option<(&[u8], &[u8])>
    ensures { option_map (λ read. (read.0.now, read.1.now)) result ≡ quoted_end text.now }
{
    let (inside, rest) = quoted_at(text)?;
    Some((inside, behind(b")", rest)?))
}

// A literal without quotes and a closing parenthesis.
#[tactic(auto, unfolding(crate::specs::Reading::plain_end))]
fn plain_end(text: &[u8]) -> Option<(&[u8], &[u8])>
    ensures { option_map (λ read. (read.0.now, read.1.now)) result ≡ plain_end text.now }
{
    let (word, rest) = cut_at(b')', text)?;
    if is_plain(word) {
        Some((word, rest))
    } else {
        None
    }
}

// What stands behind the name of a property, and a closing parenthesis.
#[tactic(auto, unfolding(crate::specs::Reading::fallback_end))]
fn fallback_end(text: &[u8]) -> Option<(Option<&[u8]>, &[u8])>
    ensures { option_map (λ read. (option_copied read.0, read.1.now)) result ≡ fallback_end text.now }
{
    if let Some(rest) = behind(b")", text) {
        return Some((None, rest));
    }
    let written = behind(b", ", text)?;
    let (value, rest) = quoted_end(written).or(plain_end(written))?;
    Some((Some(value), rest))
}

/// The name of a property, and its literal.
type Property<'a> = (&'a [u8], Option<&'a [u8]>);

#[tactic(auto, unfolding(crate::specs::Reading::property_at))]
fn property_at(text: &[u8]) -> Option<(Property<'_>, &[u8])>
    ensures { option_map (λ read. ((read.0.0.now, option_copied read.0.1), read.1.now)) result ≡ property_at text.now }
{
    let (name, rest) = quoted_at(behind(b"p(", text)?)?;
    let (fallback, rest) = fallback_end(rest)?;
    Some(((name, fallback), rest))
}

// The number that a decimal below 2^32 without leading zeros writes.
fn index_of(word: &[u8]) -> Option<u32>
    ensures { result ≡ index_of word.now }
{
    if is_word(word, b"0") {
        return Some(0);
    }
    if !is_counting(word) {
        return None;
    }
    match str::from_utf8(word) {
        Ok(word) => word.parse().ok(),
        Err(_) => None,
    }
}

// The index of an instance.
#[tactic(auto, unfolding(crate::specs::Reading::one_addr_at))]
fn one_addr_at(text: &[u8]) -> Option<(u32, &[u8])>
    ensures { option_map (λ read. (read.0, read.1.now)) result ≡ one_addr_at text.now }
{
    let (word, rest) = cut_at(b']', behind(b"instances[", text)?)?;
    let index = index_of(word)?;
    Some((index, behind(b".address", rest)?))
}

// What stands between any two addresses.
#[tactic(auto, unfolding(crate::specs::Reading::all_addrs_at))]
fn all_addrs_at(text: &[u8]) -> Option<(&[u8], &[u8])>
    ensures { option_map (λ read. (read.0.now, read.1.now)) result ≡ all_addrs_at text.now }
{
    quoted_end(behind(b"instances.map(&:address).join(", text)?)
}

/// A part, and what follows it.
type Read<'a> = (Piece<'a>, &'a [u8]);

// What is looked up in a link.
#[tactic(auto, unfolding(crate::specs::Reading::in_link_at))]
fn in_link_at<'a>(link: &'a [u8], text: &'a [u8]) -> Option<Read<'a>>
    ensures { option_map (λ read. (part read.0, read.1.now)) result ≡ in_link_at link.now text.now }
{
    if let Some(((name, fallback), rest)) = property_at(text) {
        let piece = Piece::Linked {
            link,
            name,
            fallback,
        };
        return Some((piece, rest));
    }
    if let Some((index, rest)) = one_addr_at(text) {
        return Some((Piece::OneAddr { link, index }, rest));
    }
    let (between, rest) = all_addrs_at(text)?;
    Some((Piece::AllAddrs { link, between }, rest))
}

#[tactic(auto, unfolding(crate::specs::Reading::linked_at))]
fn linked_at(text: &[u8]) -> Option<Read<'_>>
    ensures { option_map (λ read. (part read.0, read.1.now)) result ≡ linked_at text.now }
{
    let (link, rest) = quoted_at(behind(b"link(", text)?)?;
    in_link_at(link, behind(b").", rest)?)
}

fn as_word<'a>(word: SpecWord, spelling: &[u8], text: &'a [u8]) -> Option<(SpecWord, &'a [u8])>
    requires { spelling.now ≡ word_spelling word }
    ensures { option_map (λ read. (read.0, read.1.now)) result ≡ as_word word text.now }
{
    let rest = behind(spelling, text)?;
    Some((word, rest))
}

// A fact of the instance.
#[tactic(auto, unfolding(crate::specs::Reading::word_at))]
fn word_at(text: &[u8]) -> Option<(SpecWord, &[u8])>
    ensures { option_map (λ read. (read.0, read.1.now)) result ≡ word_at text.now }
{
    let rest = behind(b"spec.", text)?;
    as_word(SpecWord::Name, b"name", rest)
        .or(as_word(SpecWord::Index, b"index", rest))
        .or(as_word(SpecWord::Az, b"az", rest))
        .or(as_word(SpecWord::Address, b"address", rest))
        .or(as_word(SpecWord::Deployment, b"deployment", rest))
        .or(as_word(SpecWord::Bootstrap, b"bootstrap", rest))
}

#[tactic(auto, unfolding(crate::specs::Reading::lookup_at))]
fn lookup_at(text: &[u8]) -> Option<Read<'_>>
    ensures { option_map (λ read. (part read.0, read.1.now)) result ≡ lookup_at text.now }
{
    if let Some(((name, fallback), rest)) = property_at(text) {
        return Some((Piece::Own { name, fallback }, rest));
    }
    if let Some(read) = linked_at(text) {
        return Some(read);
    }
    let (word, rest) = word_at(text)?;
    Some((Piece::Word(word), rest))
}

// A lookup between `<%=` and `%>`.
#[tactic(auto, unfolding(crate::specs::Reading::tag_at))]
fn tag_at(text: &[u8]) -> Option<Read<'_>>
    ensures { option_map (λ read. (part read.0, read.1.now)) result ≡ tag_at text.now }
{
    let (lookup, rest) = lookup_at(trim_start(behind(b"<%=", text)?))?;
    Some((lookup, behind(b"%>", trim_start(rest))?))
}

/// The part at the front of a text that is not empty, and what follows it.
#[tactic(auto, unfolding(crate::specs::Reading::part_at))]
pub(crate) fn part_at(text: &[u8]) -> Option<Read<'_>>
    ensures { option_map (λ read. (part read.0, read.1.now)) result ≡ part_at text.now }
{
    if opens(text) {
        return tag_at(text);
    }
    let len = literal_len(text);
    Some((Piece::Literal(&text[..len]), &text[len..]))
}
