//! Parts of a text.
ghost use Rattle.std.specs.Prelude.{◌≡◌, ◌==◌, ◌∷◌, ◌++◌, position, MatchOption, reverse};
ghost use Rattle.bosh_ip.specs.Bytes.{Lacks, without_leading};

// The index of the first such byte.
fn position_of(text: &[u8], byte: u8) -> Option<usize>
    ensures { result ≡ position (λ b. b == byte) text.now }
{
    text.iter().position(|b| *b == byte)
}

// What stands before the first such byte, and what stands after it.
pub(crate) fn split_once(text: &[u8], byte: u8) -> Option<(&[u8], &[u8])>
    ensures { MatchOption result (Lacks byte text.now)
        (λ parts. (text.now ≡ parts.0.now ++ byte ∷ parts.1.now) × Lacks byte parts.0.now) }
{
    match position_of(text, byte) {
        Some(at) => Some((&text[..at], &text[at + 1..])),
        None => None,
    }
}

// The text without the spaces at its front.
pub(crate) fn trim_start(mut text: &[u8]) -> &[u8]
    ensures { result.now ≡ without_leading 32 text.now }
{
    while let [b' ', rest @ ..] = text {
        text = rest;
    }
    text
}

// The text without the spaces at its end.
pub(crate) fn trim_end(mut text: &[u8]) -> &[u8]
    ensures { reverse result.now ≡ without_leading 32 (reverse text.now) }
{
    while let [rest @ .., b' '] = text {
        text = rest;
    }
    text
}
