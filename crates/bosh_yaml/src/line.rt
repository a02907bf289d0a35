//! Lines, and the spaces and comments on them.

ghost use Rattle.std.specs.Prelude.{◌≡◌, ◌<◌, ◌≤◌, ◌∷◌, [], length, IfNone, IfSome};
ghost use Rattle.bosh_yaml.specs.Lines.{begins as starts, is_blank as blank, is_clean as clean, is_end as end, is_gap as gap, lines_of, without_return as without_carriage, skip_line_ends as without_ends, skip_spaces as skipped};

use memchr::memchr;

// The first line of the bytes, and what follows it.
pub(crate) fn next_line(bytes: &[u8]) -> Option<(&[u8], &[u8])>
    ensures none { IfNone result (lines_of bytes.now ≡ []) }
    ensures some { IfSome result (λ p. lines_of bytes.now ≡ p.0.now ∷ lines_of p.1.now) }
    ensures shorter { IfSome result (λ p. length p.1.now < length bytes.now) }
    ensures within { IfSome result (λ p. length p.0.now ≤ length bytes.now) }
{
    if bytes.is_empty() {
        return None;
    }
    match memchr(b'\n', bytes) {
        Some(end) => Some((without_return(&bytes[..end]), &bytes[end + 1..])),
        None => Some((bytes, &[])),
    }
}

fn without_return(line: &[u8]) -> &[u8]
    ensures cut { result.now ≡ without_carriage line.now }
    ensures shorter { length result.now ≤ length line.now }
{
    let len = line.len();
    if len > 0 && line[len - 1] == b'\r' {
        return &line[..len - 1];
    }
    line
}

// Whether no control byte but tab stands in a line. It looks at each byte, since that goes by several at a time.
pub(crate) fn is_clean(line: &[u8]) -> bool
    ensures { result ≡ clean line.now }
{
    let mut is_clean = true;
    for b in line {
        is_clean &= (*b >= b' ') | (*b == b'\t');
    }
    is_clean
}

// The bytes without the spaces at their front.
pub(crate) fn skip_spaces(bytes: &[u8]) -> &[u8]
    ensures skipped { result.now ≡ skipped bytes.now }
    ensures no_longer { length result.now ≤ length bytes.now }
{
    let mut rest = bytes;
    while let [b' ', after @ ..] = rest {
        rest = after;
    }
    rest
}

// The bytes without the LFs at their front.
pub(crate) fn skip_line_ends(bytes: &[u8]) -> &[u8]
    ensures skipped { result.now ≡ without_ends bytes.now }
    ensures no_longer { length result.now ≤ length bytes.now }
{
    let mut rest = bytes;
    while let [b'\n', after @ ..] = rest {
        rest = after;
    }
    rest
}

// Whether these are spaces alone, or a comment after spaces.
pub(crate) fn is_blank(bytes: &[u8]) -> bool
    ensures { result ≡ blank bytes.now }
{
    matches!(skip_spaces(bytes), [] | [b'#', ..])
}

// Whether nothing follows but spaces, and a comment after one.
pub(crate) fn is_end(bytes: &[u8]) -> bool
    ensures { result ≡ end bytes.now }
{
    match bytes {
        [] => true,
        [b' ', rest @ ..] => is_blank(rest),
        _ => false,
    }
}

// Whether the end or a space follows.
pub(crate) fn is_gap(bytes: &[u8]) -> bool
    ensures { result ≡ gap bytes.now }
{
    matches!(bytes, [] | [b' ', ..])
}

// Whether the bytes begin with this one.
pub(crate) fn begins(byte: u8, bytes: &[u8]) -> bool
    ensures { result ≡ starts byte bytes.now }
{
    match bytes {
        [first, ..] => *first == byte,
        [] => false,
    }
}
