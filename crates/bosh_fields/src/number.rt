//! Numbers within bounds.
ghost use Rattle.std.specs.Prelude.{◌≡◌, ◌≤◌};
ghost use Rattle.bosh_yaml.specs.View.{tree_of};
ghost use Rattle.bosh_fields.specs.Answer.{IsAnswer};
ghost use Rattle.bosh_fields.specs.Number.{within};

use crate::fault::limit;
use crate::{FieldFault, FromField};
use bosh_yaml::Node;
use std::alloc::Global;
use std::marker::Model;

/// A number that is no less than `LEAST` and no greater than `MOST`.
#[derive(Drop)]
pub struct Number<const LEAST: u32, const MOST: u32> {
    value: u32,
}

impl<const LEAST: u32, const MOST: u32> Model for Number<LEAST, MOST> {
    ghost use Rattle.std.specs.Prelude.{ℕ, ◌≤◌};

    ghost Value = { ℕ };

    ghost view = { λ number. number.value };

    ghost invariant = { λ number. (LEAST ≤ number.value) × (number.value ≤ MOST) };
}

impl<const LEAST: u32, const MOST: u32> Number<LEAST, MOST> {
    pub fn value(&self) -> u32
        ensures value { result ≡ self.now }
        ensures least { LEAST ≤ result }
        ensures most { result ≤ MOST }
    {
        self.value
    }
}

impl<const LEAST: u32, const MOST: u32> FromField for Number<LEAST, MOST> {
    ghost use Rattle.bosh_fields.specs.Number.{a_number};

    ghost kind = { a_number LEAST MOST };

    fn from_field(alloc: Global, key: &[u8], node: &Node) -> Result<Self, FieldFault> {
        match u32::try_from(i64::from_field(alloc, key, node)?) {
            Ok(value) if LEAST <= value && value <= MOST => Ok(Number { value }),
            _ => limit(alloc, key),
        }
    }
}
