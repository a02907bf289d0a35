ghost use Rattle.std.specs.Prelude.{◌≡◌};
ghost use Rattle.std.specs.Option.{option_copied};
ghost use Rattle.bosh_line_words.specs.Kinds.{version_of};

use crate::Place;
use crate::owner::behind;
use bosh_base::is_version;

/// A version, before it is copied.
#[derive(Clone, Copy)]
pub struct VersionWord<'a>(pub &'a [u8]);

/// The version of `--version=V`, before it is copied.
#[derive(Clone, Copy)]
pub struct VersionOption<'a>(pub &'a [u8]);

fn version_of(text: &[u8]) -> Option<&[u8]>
    ensures { option_copied result ≡ version_of text.now }
{
    match behind(b"--version=", text) {
        Some(version) if is_version(version) => Some(version),
        _ => None,
    }
}

impl<'a> Place<'a> for VersionWord<'a> {
    ghost use Rattle.std.specs.Prelude.{◌≡◌};
    ghost use Rattle.bosh_base.specs.Version.{is_version};

    ghost fits = { is_version };

    ghost reads = { λ text version. version.0.now ≡ text };

    fn read(text: &'a [u8]) -> Option<Self> {
        if is_version(text) {
            Some(VersionWord(text))
        } else {
            None
        }
    }
}

impl<'a> Place<'a> for VersionOption<'a> {
    ghost use Rattle.std.specs.Prelude.{◌≡◌, Some, is_some};
    ghost use Rattle.bosh_line_words.specs.Kinds.{version_of};

    ghost fits = { λ text. is_some (version_of text) };

    ghost reads = { λ text version. version_of text ≡ Some version.0.now };

    fn read(text: &'a [u8]) -> Option<Self> {
        match version_of(text) {
            Some(version) => Some(VersionOption(version)),
            None => None,
        }
    }
}
