//! Placeholders, as `((name))`.

ghost use Rattle.std.specs.Prelude.{◌≡◌, ◌≤◌, ◌++◌, codes, drop, length, take, IfSome};
ghost use Rattle.std.specs.Bool.{OnTrue};
ghost use Rattle.std.specs.List.{list_all};
ghost use Rattle.std.specs.Option.{option_map};
ghost use Rattle.std.specs.Str.{IsUtf8};
ghost use Rattle.bosh_vars.specs.Placeholder.{closed_name, is_name_letter as name_letter, name_at, name_len as letters};
ghost use Rattle.bosh_vars.specs.Spelling.{is_name};

// Whether a name may have this byte.
fn is_name_letter(byte: u8) -> bool
    ensures { result ≡ name_letter byte }
{
    byte.is_ascii_alphanumeric() || matches!(byte, b'_' | b'-' | b'.' | b'/')
}

fn are_name_letters(bytes: &[u8]) -> bool
    ensures { result ≡ list_all name_letter bytes.now }
{
    bytes.iter().all(|byte| is_name_letter(*byte))
}

/// Whether bytes are the name of a placeholder. Those of a name are ASCII.
#[tactic(auto, using(crate::proofs::PlaceholderLemmas::name_utf8))]
pub fn is_name(bytes: &[u8]) -> bool
    ensures name { result ≡ is_name bytes.now }
    ensures utf8 { OnTrue result (IsUtf8 bytes.now) }
{
    match bytes {
        [] => false,
        [_, ..] => are_name_letters(bytes),
    }
}

// How many bytes at the front a name may have.
fn name_len(bytes: &[u8]) -> usize
    ensures length { result ≡ letters bytes.now }
    ensures within { result ≤ length bytes.now }
{
    let mut len = 0;
    while len < bytes.len() && is_name_letter(bytes[len]) {
        len += 1;
    }
    len
}

// What a name may have at the front, and what follows it.
fn split_name(bytes: &[u8]) -> (&[u8], &[u8])
    ensures name { result.0.now ≡ take (letters bytes.now) bytes.now }
    ensures rest { result.1.now ≡ drop (letters bytes.now) bytes.now }
    ensures whole { bytes.now ≡ result.0.now ++ result.1.now }
    ensures utf8 { IsUtf8 result.0.now }
{
    bytes.split_at(name_len(bytes))
}

// The name, and what follows the placeholder, where the name is not empty and is closed.
fn closed<'a>(name: &'a [u8], rest: &'a [u8]) -> Option<(&'a [u8], &'a [u8])>
    requires { IsUtf8 name.now }
    ensures name { option_map (λ p. p.0.now) result ≡ closed_name name.now rest.now }
    ensures parts { IfSome result (λ p. (p.0.now ≡ name.now) × (rest.now ≡ codes "))" ++ p.1.now)) }
    ensures utf8 { IfSome result (λ p. IsUtf8 p.0.now) }
{
    match rest {
        [b')', b')', rest @ ..] if !name.is_empty() => Some((name, rest)),
        _ => None,
    }
}

// The name of the placeholder that a text begins with, and what follows it.
pub(crate) fn placeholder_at(text: &[u8]) -> Option<(&[u8], &[u8])>
    ensures name { option_map (λ p. p.0.now) result ≡ name_at text.now }
    ensures parts { IfSome result (λ p. text.now ≡ codes "((" ++ (p.0.now ++ (codes "))" ++ p.1.now))) }
    ensures utf8 { IfSome result (λ p. IsUtf8 p.0.now) }
{
    match text {
        [b'(', b'(', bytes @ ..] => {
            let (name, rest) = split_name(bytes);
            closed(name, rest)
        }
        _ => None,
    }
}
