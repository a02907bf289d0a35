//! Variables.

use bosh_yaml::{Node, Str};

/// A value that is given for a name.
#[derive(Drop)]
pub struct Var {
    pub name: Str,
    pub value: Node,
}
