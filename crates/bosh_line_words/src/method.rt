ghost use Rattle.std.specs.Prelude.{◌≡◌};
ghost use Rattle.bosh_line_words.specs.Kinds.{method_of};

use crate::Place;
use bosh_base::{METHODS, Method};

fn method_of(text: &[u8]) -> Option<Method>
    ensures { result ≡ method_of text.now }
{
    METHODS
        .iter()
        .copied()
        .find(|method| method.name().as_bytes() == text)
}

impl<'a> Place<'a> for Method {
    ghost use Rattle.std.specs.Prelude.{◌≡◌, is_some, Some};
    ghost use Rattle.bosh_line_words.specs.Kinds.{method_of};

    ghost fits = { λ text. is_some (method_of text) };

    ghost reads = { λ text method. method_of text ≡ Some method };

    fn read(text: &'a [u8]) -> Option<Self> {
        method_of(text)
    }
}
