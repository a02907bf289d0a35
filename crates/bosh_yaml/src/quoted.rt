//! Quoted scalars.

ghost use Rattle.std.specs.Prelude.{◌≡◌, ◌≢◌, ◌<◌, ◌≤◌, ◌++◌, ◌∷◌, None, length, IfNone, IfOk, IfSome, OnOk};
ghost use Rattle.std.specs.Char.{encode_utf8};
ghost use Rattle.std.specs.Option.{option_map};
ghost use Rattle.bosh_yaml.specs.Quotes.{after_text, character as character_of, double_escaped, double_quoted as double, double_unicode, escaped_character as unescaped, four_hex, hex as hexadecimal, single_quoted as single};

use memchr::{memchr, memchr2};
use std::alloc::{AllocError, Global};

// The text up to the closing single quote, and what follows it.
pub(crate) fn single_quoted(
    alloc: Global,
    bytes: &[u8],
) -> Result<Option<(Vec<u8>, &[u8])>, AllocError>
    ensures text { IfOk result (λ o. option_map (λ p. (p.0.items, p.1.now)) o ≡ single bytes.now) }
    ensures no_longer { IfOk result (λ o. IfSome o (λ p. length p.1.now ≤ length bytes.now)) }
{
    let mut text = Vec::new(alloc);
    let mut rest = bytes;
    while let Some((run, after)) = until_quote(rest) {
        text.extend_from_slice(run)?;
        match after {
            [b'\'', after @ ..] => {
                text.push(b'\'')?;
                rest = after;
            }
            _ => return Ok(Some((text, after))),
        }
    }
    Ok(None)
}

// The bytes before the first single quote, and those behind it.
fn until_quote(bytes: &[u8]) -> Option<(&[u8], &[u8])>
    ensures found { IfSome result (λ p. single bytes.now ≡ after_text p.0.now (single (39 ∷ p.1.now))) }
    ensures shorter { IfSome result (λ p. length p.1.now < length bytes.now) }
    ensures none { IfNone result (single bytes.now ≡ None) }
{
    match memchr(b'\'', bytes) {
        Some(end) => Some((&bytes[..end], &bytes[end + 1..])),
        None => None,
    }
}

#[tactic(auto, using(crate::proofs::QuoteLemmas::quotes))]
// The text up to the closing double quote, with its escapes undone, and what follows it.
pub(crate) fn double_quoted(
    alloc: Global,
    bytes: &[u8],
) -> Result<Option<(Vec<u8>, &[u8])>, AllocError>
    ensures text { IfOk result (λ o. option_map (λ p. (p.0.items, p.1.now)) o ≡ double bytes.now) }
    ensures no_longer { IfOk result (λ o. IfSome o (λ p. length p.1.now ≤ length bytes.now)) }
{
    let mut text = Vec::new(alloc);
    let mut rest = bytes;
    while let Some((run, sign, after)) = until_sign(rest) {
        text.extend_from_slice(run)?;
        if sign == b'"' {
            return Ok(Some((text, after)));
        }
        let Some((c, after)) = escape_of(after) else {
            return Ok(None);
        };
        push_char(&mut text, c)?;
        rest = after;
    }
    Ok(None)
}

// The bytes before the first double quote or backslash, which of the two it is, and the bytes behind it.
fn until_sign(bytes: &[u8]) -> Option<(&[u8], u8, &[u8])>
    ensures found { IfSome result (λ p. double bytes.now ≡ after_text p.0.now (double (p.1 ∷ p.2.now))) }
    ensures sign { IfSome result (λ p. p.1 ≢ 34 → p.1 ≡ 92) }
    ensures shorter { IfSome result (λ p. length p.2.now < length bytes.now) }
    ensures none { IfNone result (double bytes.now ≡ None) }
{
    match memchr2(b'"', b'\\', bytes) {
        Some(end) => Some((&bytes[..end], bytes[end], &bytes[end + 1..])),
        None => None,
    }
}

// The character that an escape stands for, from behind its backslash, and what follows it.
fn escape_of(bytes: &[u8]) -> Option<(char, &[u8])>
    ensures found { IfSome result (λ p. double_escaped bytes.now ≡ after_text (encode_utf8 p.0) (double p.1.now)) }
    ensures shorter { IfSome result (λ p. length p.1.now < length bytes.now) }
    ensures none { IfNone result (double_escaped bytes.now ≡ None) }
{
    match bytes {
        [b'u', digits @ ..] => unicode_of(digits),
        [letter, after @ ..] => Some((escaped(*letter)?, after)),
        [] => None,
    }
}

// The character of the four digits at the front, and what follows them.
fn unicode_of(bytes: &[u8]) -> Option<(char, &[u8])>
    ensures found { IfSome result (λ p. double_unicode bytes.now ≡ after_text (encode_utf8 p.0) (double p.1.now)) }
    ensures shorter { IfSome result (λ p. length p.1.now < length bytes.now) }
    ensures none { IfNone result (double_unicode bytes.now ≡ None) }
{
    if bytes.len() < 4 {
        return None;
    }
    let (digits, after) = bytes.split_at(4);
    let c = character(digits[0], digits[1], digits[2], digits[3])?;
    Some((c, after))
}

// The character of a letter behind a backslash.
fn escaped(letter: u8) -> Option<char>
    ensures { result ≡ unescaped letter }
{
    match letter {
        b'\\' | b'"' | b'/' => Some(char::from(letter)),
        b'n' => Some('\n'),
        b'r' => Some('\r'),
        b't' => Some('\t'),
        b'0' => Some('\0'),
        _ => None,
    }
}

// The value of a hexadecimal digit.
fn hex(digit: u8) -> Option<u32>
    ensures value { result ≡ hexadecimal digit }
    ensures small { IfSome result (λ n. n < 16) }
{
    match digit {
        b'0'..=b'9' => Some(u32::from(digit - b'0')),
        b'a'..=b'f' => Some(u32::from(digit - b'a' + 10)),
        b'A'..=b'F' => Some(u32::from(digit - b'A' + 10)),
        _ => None,
    }
}

// The character of four hexadecimal digits.
fn character(a: u8, b: u8, c: u8, d: u8) -> Option<char>
    ensures { result ≡ character_of (four_hex a b c d) }
{
    let high = hex(a)? * 16 + hex(b)?;
    let code = (high * 16 + hex(c)?) * 16 + hex(d)?;
    char::from_u32(code)
}

fn push_char(text: &mut Vec<u8>, c: char) -> Result<(), AllocError>
    ensures { OnOk result (text.new.items ≡ text.old.items ++ encode_utf8 c) }
{
    let mut buffer = [0; 4];
    text.extend_from_slice(c.encode_utf8(&mut buffer).as_bytes())
}
