// Which paths lead to a place below a folder.
ghost use Rattle.std.specs.Prelude.{◌≡◌, MatchOption};
ghost use Rattle.bosh_ports.specs.Inside.{IsInside, has_nul, has_parent};

use crate::shelf::has_line_feed;
use std::str;

/// The path as a text, where it leads to a place below the folder that it starts from.
pub(crate) fn inside(path: &[u8]) -> Option<&str>
    ensures { MatchOption result (IsInside path.now → ⊥) (λ text. IsInside path.now × (text.now ≡ path.now)) }
{
    let Ok(text) = str::from_utf8(path) else {
        return None;
    };
    if path.is_empty() || path.starts_with(b"/".as_slice()) || has_parent(text) {
        return None;
    }
    if has_line_feed(path) || has_nul(path) {
        return None;
    }
    Some(text)
}

fn has_parent(path: &str) -> bool
    ensures { result ≡ has_parent path.now }
{
    path.split('/').any(|part| part == "..")
}

fn has_nul(path: &[u8]) -> bool
    ensures { result ≡ has_nul path.now }
{
    path.contains(&0)
}
