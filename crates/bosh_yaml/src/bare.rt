//! Where a plain scalar begins and ends on its line.

ghost use Rattle.std.specs.Prelude.{◌≡◌, ◌≤◌, length};
ghost use Rattle.bosh_yaml.specs.Bare.{ends_plain as ends, flow_sign_follows, is_flow_sign as flow_sign, is_flow_sign_in, is_indicator as indicator, is_mark as mark, plain_len as extent, starts_plain as starts, trim_end as trimmed};

use crate::line::{begins, is_gap};

/// Where a scalar stands: on a line of its own form, or inside a flow form.
#[derive(Clone, Copy)]
pub(crate) enum Place {
    Block,
    Flow,
}

// Whether this is a sign of a flow form.
pub(crate) fn is_flow_sign(b: u8) -> bool
    ensures { result ≡ flow_sign b }
{
    matches!(b, b',' | b'[' | b']' | b'{' | b'}')
}

fn is_indicator(b: u8) -> bool
    ensures { result ≡ indicator b }
{
    b == b' '
        || is_flow_sign(b)
        || matches!(
            b,
            b'#' | b'&' | b'*' | b'!' | b'|' | b'>' | b'\'' | b'"' | b'%' | b'@' | b'`'
        )
}

fn is_mark(b: u8) -> bool
    ensures { result ≡ mark b }
{
    matches!(b, b'-' | b'?' | b':')
}

// Whether a plain scalar begins here.
pub(crate) fn starts_plain(bytes: &[u8]) -> bool
    ensures { result ≡ starts bytes.now }
{
    match bytes {
        [first, rest @ ..] => !(is_indicator(*first) || is_mark(*first) && is_gap(rest)),
        [] => false,
    }
}

fn is_flow_sign_in(place: Place, b: u8) -> bool
    ensures { result ≡ is_flow_sign_in place b }
{
    match place {
        Place::Block => false,
        Place::Flow => is_flow_sign(b),
    }
}

fn flow_sign_follows(place: Place, bytes: &[u8]) -> bool
    ensures { result ≡ flow_sign_follows place bytes.now }
{
    match bytes {
        [] => false,
        [first, ..] => is_flow_sign_in(place, *first),
    }
}

// Whether a plain scalar ends before this byte.
fn ends_plain(place: Place, b: u8, rest: &[u8]) -> bool
    ensures { result ≡ ends place b rest.now }
{
    b == b':' && (is_gap(rest) || flow_sign_follows(place, rest))
        || b == b' ' && begins(b'#', rest)
        || is_flow_sign_in(place, b)
}

// How many bytes a plain scalar has, with the spaces at its end.
pub(crate) fn plain_len(place: Place, bytes: &[u8]) -> usize
    ensures length { result ≡ extent place bytes.now }
    ensures within { result ≤ length bytes.now }
{
    let mut len = 0;
    while len < bytes.len() && !ends_plain(place, bytes[len], &bytes[len + 1..]) {
        len += 1;
    }
    len
}

// The bytes without the spaces at their end.
pub(crate) fn trim_end(bytes: &[u8]) -> &[u8]
    ensures { result.now ≡ trimmed bytes.now }
{
    let mut len = bytes.len();
    while len > 0 && bytes[len - 1] == b' ' {
        len -= 1;
    }
    &bytes[..len]
}
