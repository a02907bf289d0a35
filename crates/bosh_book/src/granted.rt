ghost use Rattle.std.specs.Prelude.{◌≡◌, ◌↔◌, IfOk, IsTrue};
ghost use Rattle.std.specs.Option.{option_copied};
ghost use Rattle.bosh_book.specs.Current.{IsFor, dep_of, permit_of};

use bosh_base::{Begin, Call, CopyFault, Name, Owner, copy_three, is_same};
use bosh_records::Records;
use std::alloc::Global;

/// The call that a permit is for.
#[derive(Drop)]
pub(crate) struct Granted {
    pub n: u64,
    pub task: u64,
    pub owner: Owner,
    pub dep: Name,
    pub call: Call,
}

impl Granted {
    /// The call that begins so, for a deployment.
    pub(crate) fn of(alloc: Global, begin: &Begin, dep: &Name) -> Result<Granted, CopyFault>
        ensures { IfOk result (λ granted. granted ≡ permit_of begin.now dep.now) }
    {
        let (owner, dep, call) = copy_three(&begin.owner, dep, &begin.call, alloc)?;
        Ok(Granted {
            n: begin.n,
            task: begin.task,
            owner,
            dep,
            call,
        })
    }

    /// Whether it is the call that begins so.
    pub(crate) fn is_begun(&self, begin: &Begin) -> bool
        ensures { IsTrue result ↔ IsFor begin.now self.now }
    {
        begin.n == self.n
            && begin.task == self.task
            && is_same(&begin.owner, &self.owner)
            && is_same(&begin.call, &self.call)
    }
}

/// The deployment that what is done for an owner is for: that of an instance, that of the task of a compile machine, or
/// that of the instance that had an orphaned disk.
pub(crate) fn dep_of<'a>(records: &'a Records, owner: &'a Owner) -> Option<&'a Name>
    ensures { option_copied result ≡ dep_of records.now owner.now }
{
    match owner {
        Owner::Instance(inst) => Some(&inst.dep),
        Owner::Compile(task, _) => records.task(*task)?.dep.as_ref(),
        Owner::Disk(disk) => Some(&records.orphan(*disk)?.orphan.inst.dep),
    }
}
