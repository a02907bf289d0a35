ghost use Rattle.std.specs.Prelude.{◌≡◌};

use crate::coded::Coded;
use crate::fault::EntryFault;
use crate::format::Format;
use crate::later::before_later;
use crate::pair::{write_both, write_four};
use crate::source::Source;
use crate::variant::write_place;
use bosh_base::{Call, DiskRow, Doubt, Role, Row, Vm};
use std::alloc::Global;

impl Coded for Role {
    ghost use Rattle.bosh_entry.specs.Row.{role, is_role, role_at};

    ghost spelling = { λ _. role };

    ghost fits = { λ _. is_role };

    ghost reading = { λ _. role_at };

    #[tactic(auto, unfolding(crate::specs::Row::role, crate::specs::Row::is_role))]
    fn write(&self, out: &mut Vec<u8>) -> Result<(), EntryFault> {
        match self {
            Role::Active => write_place(0, out),
            Role::New => write_place(1, out),
            Role::Old => write_place(2, out),
        }
    }

    #[tactic(auto, unfolding(crate::specs::Row::role_at))]
    fn read(_alloc: Global, _format: Format, from: &mut Source) -> Result<Self, EntryFault> {
        match from.byte()? {
            0 => Ok(Role::Active),
            1 => Ok(Role::New),
            2 => Ok(Role::Old),
            _ => Err(EntryFault::NotAnEntry),
        }
    }
}

impl Coded for DiskRow {
    ghost use Rattle.bosh_entry.specs.Row.{disk_row, is_disk_row, disk_row_at};

    ghost spelling = { λ _. disk_row };

    ghost fits = { λ _. is_disk_row };

    ghost reading = { λ _. disk_row_at };

    #[tactic(auto, unfolding(crate::specs::Row::disk_row, crate::specs::Row::is_disk_row))]
    fn write(&self, out: &mut Vec<u8>) -> Result<(), EntryFault> {
        write_four(&self.disk, &self.tag, &self.want, &self.role, out)?;
        write_both(&self.attached, &self.mounted, out)
    }

    #[tactic(auto, using(crate::proofs::StructLemmas::disk_row_parts))]
    fn read(alloc: Global, format: Format, from: &mut Source) -> Result<Self, EntryFault> {
        let fields = Coded::read(alloc, format, from)?;
        let (((disk, tag), (want, role)), (attached, mounted)) = fields;
        Ok(DiskRow {
            disk,
            tag,
            want,
            role,
            attached,
            mounted,
        })
    }
}

impl Coded for Vm {
    ghost use Rattle.bosh_entry.specs.Row.{vm, is_vm, vm_at};

    ghost spelling = { λ _. vm };

    ghost fits = { λ _. is_vm };

    ghost reading = { λ _. vm_at };

    #[tactic(auto, unfolding(crate::specs::Row::vm, crate::specs::Row::is_vm))]
    fn write(&self, out: &mut Vec<u8>) -> Result<(), EntryFault> {
        self.vm.write(out)?;
        self.agent.write(out)
    }

    #[tactic(auto, unfolding(crate::specs::Row::vm_at))]
    fn read(alloc: Global, format: Format, from: &mut Source) -> Result<Self, EntryFault> {
        Ok(Vm {
            vm: u64::read(alloc, format, from)?,
            agent: u64::read(alloc, format, from)?,
        })
    }
}

impl Coded for Doubt {
    ghost use Rattle.bosh_entry.specs.Row.{doubt, is_doubt, doubt_at};

    ghost spelling = { λ _. doubt };

    ghost fits = { λ _. is_doubt };

    ghost reading = { λ _. doubt_at };

    #[tactic(auto, unfolding(crate::specs::Row::doubt, crate::specs::Row::is_doubt))]
    fn write(&self, out: &mut Vec<u8>) -> Result<(), EntryFault> {
        self.n.write(out)?;
        self.call.write(out)
    }

    #[tactic(auto, unfolding(crate::specs::Row::doubt_at))]
    fn read(alloc: Global, format: Format, from: &mut Source) -> Result<Self, EntryFault> {
        Ok(Doubt {
            n: u64::read(alloc, format, from)?,
            call: Call::read(alloc, format, from)?,
        })
    }
}

impl Coded for Row {
    ghost use Rattle.bosh_entry.specs.Row.{row, is_row, row_at};

    ghost spelling = { row };

    ghost fits = { is_row };

    ghost reading = { row_at };

    #[tactic(auto, unfolding(crate::specs::Row::row, crate::specs::Row::is_row))]
    fn write(&self, out: &mut Vec<u8>) -> Result<(), EntryFault> {
        write_four(&self.inst, &self.make, &self.vm, &self.spec, out)?;
        write_four(&self.running, &self.drained, &self.disks, &self.doubt, out)?;
        self.lost.write(out)
    }

    #[tactic(auto, using(crate::proofs::StructLemmas::row_parts))]
    fn read(alloc: Global, format: Format, from: &mut Source) -> Result<Self, EntryFault> {
        let (fields, lost) = before_later(alloc, format, from, false)?;
        let (((inst, make), (vm, spec)), ((running, drained), (disks, doubt))) = fields;
        Ok(Row {
            inst,
            make,
            vm,
            spec,
            running,
            drained,
            disks,
            doubt,
            lost,
        })
    }
}
