ghost use Rattle.std.specs.Prelude.{◌≡◌, ◌↔◌, IsTrue};
ghost use Rattle.std.specs.List.{list_all};
ghost use Rattle.bosh_compile.specs.Readiness.{IsReady, is_among};

use crate::KeySet;
use bosh_base::{Key, KeyWork};

fn are_among<'a>(keys: &'a [Key], compiled: &KeySet<'a>) -> bool
    ensures { result ≡ list_all (λ key. is_among key compiled.now) keys.now }
{
    for key in keys {
        if !compiled.has(key) {
            return false;
        }
    }
    true
}

/// Whether a work may be compiled: all that it needs is.
pub fn ready<'a>(work: &'a KeyWork, compiled: &KeySet<'a>) -> bool
    ensures { IsTrue result ↔ IsReady work.now compiled.now }
{
    are_among(work.deps.as_slice(), compiled)
}
