//! Numbers of instances, whole or as shares of a group.
ghost use Rattle.std.specs.Prelude.{◌≡◌, ◌<◌, ◌≤◌, IfSome};
ghost use Rattle.bosh_yaml.specs.View.{tree_of};
ghost use Rattle.bosh_fields.specs.Answer.{IsAnswer};
ghost use Rattle.bosh_manifest_update.specs.Amount.{an_amount, digit, share, share_in, two_digits, whole};

use bosh_base::Count;
use bosh_fields::{FieldFault, FromField, limit, malformed, wrong_kind};
use bosh_yaml::Node;
use std::alloc::Global;
use std::marker::Model;

/// A number of instances that is no less than `LEAST`, or a share of a group.
#[derive(Drop)]
pub(crate) struct Amount<const LEAST: u32> {
    count: Count,
}

impl<const LEAST: u32> Model for Amount<LEAST> {
    ghost use Rattle.bosh_base.specs.declared.count.Count.{Count};

    ghost Value = { Count };

    ghost view = { λ amount. amount.count };
}

impl<const LEAST: u32> Amount<LEAST> {
    pub(crate) fn count(&self) -> Count
        ensures { result ≡ self.now }
    {
        self.count
    }
}

// The number that a digit stands for, if it is no less than the least.
fn digit(least: u8, byte: u8) -> Option<u32>
    requires { least ≤ 1 }
    ensures number { result ≡ digit least byte }
    ensures below { IfSome result (λ number. number < 10) }
{
    if 48 + least <= byte && byte <= 57 {
        Some(u32::from(byte - 48))
    } else {
        None
    }
}

fn two_digits(tens: u8, ones: u8) -> Option<u32>
    ensures { result ≡ two_digits tens ones }
{
    let tens = digit(1, tens)?;
    let ones = digit(0, ones)?;
    Some(10 * tens + ones)
}

// The N of `N%`.
fn share_in(text: &[u8]) -> Option<u32>
    ensures { result ≡ share_in text.now }
{
    match text {
        [ones, b'%'] => digit(0, *ones),
        [tens, ones, b'%'] => two_digits(*tens, *ones),
        b"100%" => Some(100),
        _ => None,
    }
}

fn share(alloc: Global, key: &[u8], percent: Option<u32>) -> Result<Count, FieldFault>
    ensures { IsAnswer result (share key.now percent) }
{
    match percent {
        Some(percent) => Ok(Count::Percent(percent)),
        None => malformed(alloc, key),
    }
}

fn whole(alloc: Global, least: u32, key: &[u8], number: i64) -> Result<Count, FieldFault>
    ensures { IsAnswer result (whole least key.now number) }
{
    if number < i64::from(least) {
        return malformed(alloc, key);
    }
    match u32::try_from(number) {
        Ok(number) => Ok(Count::Whole(number)),
        Err(_) => limit(alloc, key),
    }
}

fn count_of(alloc: Global, least: u32, key: &[u8], node: &Node) -> Result<Count, FieldFault>
    ensures { IsAnswer result (an_amount least key.now (tree_of node.now)) }
{
    match node {
        Node::Int(number) => whole(alloc, least, key, *number),
        Node::Text(text) => share(alloc, key, share_in(text.as_bytes())),
        _ => wrong_kind(alloc, key),
    }
}

impl<const LEAST: u32> FromField for Amount<LEAST> {
    ghost use Rattle.bosh_manifest_update.specs.Amount.{an_amount};

    ghost kind = { an_amount LEAST };

    fn from_field(alloc: Global, key: &[u8], node: &Node) -> Result<Self, FieldFault> {
        let count = count_of(alloc, LEAST, key, node)?;
        Ok(Amount { count })
    }
}
