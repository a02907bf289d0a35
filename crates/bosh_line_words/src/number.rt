ghost use Rattle.std.specs.Prelude.{◌≡◌, ◌<◌, ◌^◌, SomeIff, true};
ghost use Rattle.std.specs.Str.Parse.{digits_value};
ghost use Rattle.std.specs.Str.{all_ascii_digits};
ghost use Rattle.bosh_line_words.specs.Kinds.{is_decimal, number_in};

use crate::Place;
use std::str;

/// A number from `LOW` to `HIGH`, in decimal without sign and leading zeros.
#[derive(Clone, Copy)]
pub struct Number<const LOW: u64, const HIGH: u64>(pub u64);

fn are_digits(bytes: &[u8]) -> bool
    ensures { result ≡ all_ascii_digits bytes.now }
{
    bytes.iter().all(|byte| byte.is_ascii_digit())
}

fn is_decimal(text: &[u8]) -> bool
    ensures { result ≡ is_decimal text.now }
{
    match text {
        [] => false,
        [first, more @ ..] => are_digits(text) && (*first != b'0' || more.is_empty()),
    }
}

// The number that digits make, where it has at most 64 bits.
fn value_of(digits: &[u8]) -> Option<u64>
    requires { is_decimal digits.now ≡ true }
    ensures { SomeIff result (digits_value 10 digits.now < 2 ^ 64) (digits_value 10 digits.now) }
{
    match str::from_utf8(digits) {
        Ok(digits) => digits.parse().ok(),
        Err(_) => None,
    }
}

pub(crate) fn number_in(low: u64, high: u64, text: &[u8]) -> Option<u64>
    ensures { result ≡ number_in low high text.now }
{
    if !is_decimal(text) {
        return None;
    }
    match value_of(text) {
        Some(number) if low <= number && number <= high => Some(number),
        _ => None,
    }
}

impl<'a, const LOW: u64, const HIGH: u64> Place<'a> for Number<LOW, HIGH> {
    ghost use Rattle.std.specs.Prelude.{◌≡◌, is_some, Some};
    ghost use Rattle.bosh_line_words.specs.Kinds.{number_in};

    ghost fits = { λ text. is_some (number_in LOW HIGH text) };

    ghost reads = { λ text number. number_in LOW HIGH text ≡ Some number.0 };

    fn read(text: &'a [u8]) -> Option<Self> {
        match number_in(LOW, HIGH, text) {
            Some(number) => Some(Number(number)),
            None => None,
        }
    }
}
