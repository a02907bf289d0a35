ghost use Rattle.std.specs.Prelude.{◌≡◌};
ghost use Rattle.bosh_line_words.specs.Kinds.{climbs, is_path};

use crate::{Place, is_text};

// The greatest length of a path, in bytes.
const MAX_PATH: usize = 255;

/// A path of a file or a folder below the folder that a session runs in.
#[derive(Clone, Copy)]
pub struct Path<'a>(pub &'a [u8]);

// Whether a part of a path leads out of its folder.
fn climbs(path: &[u8]) -> bool
    ensures { result ≡ climbs path.now }
{
    path.split(|byte| *byte == b'/')
        .any(|part| part == b"..".as_slice())
}

fn is_path(word: &[u8]) -> bool
    ensures { result ≡ is_path word.now }
{
    !word.is_empty()
        && word.len() <= MAX_PATH
        && is_text(word)
        && !word.starts_with(b"/")
        && !climbs(word)
}

impl<'a> Place<'a> for Path<'a> {
    ghost use Rattle.std.specs.Prelude.{◌≡◌};
    ghost use Rattle.bosh_line_words.specs.Kinds.{is_path};

    ghost fits = { is_path };

    ghost reads = { λ text path. path.0.now ≡ text };

    fn read(text: &'a [u8]) -> Option<Self> {
        if is_path(text) {
            Some(Path(text))
        } else {
            None
        }
    }
}
