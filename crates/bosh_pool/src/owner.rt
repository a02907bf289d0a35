//! Owners of addresses.
ghost use Rattle.std.specs.Prelude.{◌≡◌};
ghost use Rattle.bosh_pool.specs.Fixed.{is_owner, same_inst};
ghost use Rattle.bosh_pool.specs.Table.{same_owner};

use bosh_base::{Inst, Owner};

fn same_inst(one: &Inst, other: &Inst) -> bool
    ensures { result ≡ same_inst one.now other.now }
{
    one.dep == other.dep && one.group == other.group && one.index == other.index
}

/// Whether an owner is an instance.
pub(crate) fn is_owner(inst: &Inst, owner: &Owner) -> bool
    ensures { result ≡ is_owner inst.now owner.now }
{
    match owner {
        Owner::Instance(other) => same_inst(other, inst),
        Owner::Compile(_, _) | Owner::Disk(_) => false,
    }
}

/// Whether two owners are one instance.
pub(crate) fn same_owner(one: &Owner, other: &Owner) -> bool
    ensures { result ≡ same_owner one.now other.now }
{
    match one {
        Owner::Instance(inst) => is_owner(inst, other),
        Owner::Compile(_, _) | Owner::Disk(_) => false,
    }
}
