//! How long an update is watched.
ghost use Rattle.std.specs.Prelude.{◌≡◌, ◌==◌, nat_le, position, true};
ghost use Rattle.std.specs.Char.{is_ascii_digit};
ghost use Rattle.std.specs.List.{list_all};
ghost use Rattle.std.specs.Str.Parse.{digits_value};
ghost use Rattle.bosh_yaml.specs.View.{tree_of};
ghost use Rattle.bosh_ip.specs.Bytes.{without_leading};
ghost use Rattle.bosh_manifest_update.specs.WatchTime.{are_in_order, is_between, is_decimal};

use bosh_fields::{FieldFault, FromField, malformed, wrong_kind};
use bosh_yaml::Node;
use std::alloc::Global;

/// A watch time, of which no more is kept.
#[derive(Clone, Copy)]
pub(crate) enum WatchTime {
    /// A number of milliseconds.
    Fixed,
    /// At least one number of milliseconds and at most another.
    Between,
}

fn are_digits(text: &[u8]) -> bool
    ensures { result ≡ list_all is_ascii_digit text.now }
{
    text.iter().all(|byte| byte.is_ascii_digit())
}

fn is_decimal(text: &[u8]) -> bool
    ensures { result ≡ is_decimal text.now }
{
    1 <= text.len() && are_digits(text)
}

fn without_zeros(digits: &[u8]) -> &[u8]
    ensures { result.now ≡ without_leading 48 digits.now }
{
    let mut rest = digits;
    while let [b'0', others @ ..] = rest {
        rest = others;
    }
    rest
}

// Whether the number of some digits is no greater than that of others. They may be of any length.
fn is_at_most(from: &[u8], to: &[u8]) -> bool
    requires from { list_all is_ascii_digit from.now ≡ true }
    requires to { list_all is_ascii_digit to.now ≡ true }
    ensures { result ≡ nat_le (digits_value 10 from.now) (digits_value 10 to.now) }
{
    let from = without_zeros(from);
    let to = without_zeros(to);
    if from.len() == to.len() {
        from.cmp(to).is_le()
    } else {
        from.len() < to.len()
    }
}

fn are_in_order(from: &[u8], to: &[u8]) -> bool
    ensures { result ≡ are_in_order from.now to.now }
{
    is_decimal(from) && is_decimal(to) && is_at_most(from, to)
}

fn dash_of(text: &[u8]) -> Option<usize>
    ensures { result ≡ position (λ byte. byte == 45) text.now }
{
    text.iter().position(|byte| *byte == b'-')
}

fn is_between(text: &[u8]) -> bool
    ensures { result ≡ is_between text.now (position (λ byte. byte == 45) text.now) }
{
    match dash_of(text) {
        Some(dash) => are_in_order(&text[..dash], &text[dash + 1..]),
        None => false,
    }
}

/// A number of milliseconds, or two of them as `a-b`.
impl FromField for WatchTime {
    ghost use Rattle.bosh_manifest_update.specs.WatchTime.{a_watch_time};

    ghost kind = { a_watch_time };

    fn from_field(alloc: Global, key: &[u8], node: &Node) -> Result<Self, FieldFault> {
        match node {
            Node::Int(_) => Ok(WatchTime::Fixed),
            Node::Text(text) if is_between(text.as_bytes()) => Ok(WatchTime::Between),
            Node::Text(_) => malformed(alloc, key),
            _ => wrong_kind(alloc, key),
        }
    }
}
