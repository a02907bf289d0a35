ghost use Rattle.std.specs.Prelude.{◌≡◌};
ghost use Rattle.bosh_records.specs.Changes.{machine_there, with_machine_call, with_machine_doubt, with_sweep};
ghost use Rattle.bosh_records.specs.Readers.{machine_cmp};
ghost use Rattle.bosh_records.specs.Table.{changed};

use crate::Table;
use bosh_base::{CompileRow, Doubt, Vm};
use bosh_drops::put;
use bosh_work::MachineName;

/// What is recorded of a compile machine, and what it is for.
#[derive(Drop)]
pub struct Machine {
    pub row: CompileRow,
    /// What it is to compile: a place among the keys of its task's goal.
    pub key: Option<usize>,
    /// Its place among those that the open task of its deployment sweeps.
    pub sweep: Option<usize>,
    /// The number of its open call.
    pub call: Option<u64>,
}

impl Table<MachineName, Machine> {
    /// Notes the open call of a machine, or that it has none.
    pub fn set_call(&mut self, name: &MachineName, call: Option<u64>)
        ensures { self.new.places.entries ≡ changed machine_cmp name.now (with_machine_call call) self.old.places.entries }
    {
        if let Some(place) = self.places.get_mut(name) {
            if let Some(machine) = place {
                machine.call = call;
            }
        }
    }

    /// Notes its place among those that are swept.
    pub fn set_sweep(&mut self, name: &MachineName, sweep: Option<usize>)
        ensures { self.new.places.entries ≡ changed machine_cmp name.now (with_sweep sweep) self.old.places.entries }
    {
        if let Some(place) = self.places.get_mut(name) {
            if let Some(machine) = place {
                machine.sweep = sweep;
            }
        }
    }

    /// Notes the call that leaves in doubt whether it is there.
    pub fn set_doubt(&mut self, name: &MachineName, doubt: Doubt)
        ensures { self.new.places.entries ≡ changed machine_cmp name.now (with_machine_doubt doubt) self.old.places.entries }
    {
        if let Some(place) = self.places.get_mut(name) {
            if let Some(machine) = place {
                put(&mut machine.row.doubt, Some(doubt));
            }
        }
    }

    /// It is there, by its number, where one is told, and there is no doubt any more.
    pub fn set_there(&mut self, name: &MachineName, vm: Option<Vm>)
        ensures { self.new.places.entries ≡ changed machine_cmp name.now (machine_there vm) self.old.places.entries }
    {
        if let Some(place) = self.places.get_mut(name) {
            if let Some(machine) = place {
                machine.row.vm = vm.or(machine.row.vm);
                put(&mut machine.row.doubt, None);
            }
        }
    }
}
