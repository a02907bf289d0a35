ghost use Rattle.std.specs.Prelude.{◌≡◌};
ghost use Rattle.std.specs.Bool.{OnTrue};
ghost use Rattle.std.specs.Str.{IsUtf8, is_utf8};

use std::str;

/// Whether bytes are UTF-8.
#[tactic(auto, using(crate::proofs::TextLemmas::tests_text))]
pub fn is_text(bytes: &[u8]) -> bool
    ensures test { result ≡ is_utf8 bytes.now }
    ensures utf8 { OnTrue result (IsUtf8 bytes.now) }
{
    match str::from_utf8(bytes) {
        Ok(_) => true,
        Err(_) => false,
    }
}
