ghost use Rattle.std.specs.Prelude.{◌≡◌, ◌++◌, OnOk};
ghost use Rattle.bosh_report.specs.Owner.{addr_text, disk_name, disk_or_dash, inst_text, member_text, owner_text, vm_name, vm_or_dash};

use crate::ReportFault;
use crate::piece::{Piece, add, add_number};
use bosh_base::{Addr, Inst, Name, Owner};
use bosh_ip::add_addr;

/// `GROUP/INDEX`
pub(crate) fn add_member(out: &mut Vec<u8>, group: &Name, index: u32) -> Result<(), ReportFault>
    ensures { OnOk result (out.new.items ≡ out.old.items ++ member_text group.now index) }
{
    group.add_to(out)?;
    add(out, b"/")?;
    add_number(out, u64::from(index))
}

pub(crate) fn add_vm(out: &mut Vec<u8>, vm: u64) -> Result<(), ReportFault>
    ensures { OnOk result (out.new.items ≡ out.old.items ++ vm_name vm) }
{
    add(out, b"vm-")?;
    add_number(out, vm)
}

pub(crate) fn add_disk(out: &mut Vec<u8>, disk: u64) -> Result<(), ReportFault>
    ensures { OnOk result (out.new.items ≡ out.old.items ++ disk_name disk) }
{
    add(out, b"disk-")?;
    add_number(out, disk)
}

pub(crate) fn add_vm_or_dash(out: &mut Vec<u8>, vm: Option<u64>) -> Result<(), ReportFault>
    ensures { OnOk result (out.new.items ≡ out.old.items ++ vm_or_dash vm) }
{
    match vm {
        None => add(out, b"-"),
        Some(vm) => add_vm(out, vm),
    }
}

pub(crate) fn add_disk_or_dash(out: &mut Vec<u8>, disk: Option<u64>) -> Result<(), ReportFault>
    ensures { OnOk result (out.new.items ≡ out.old.items ++ disk_or_dash disk) }
{
    match disk {
        None => add(out, b"-"),
        Some(disk) => add_disk(out, disk),
    }
}

/// `DEPLOYMENT/GROUP/INDEX`
impl Piece for Inst {
    ghost text = { inst_text };

    fn add_to(&self, out: &mut Vec<u8>) -> Result<(), ReportFault> {
        self.dep.add_to(out)?;
        add(out, b"/")?;
        add_member(out, &self.group, self.index)
    }
}

/// An instance, `@compile/TASK/SLOT` or `@disk/N`.
impl Piece for Owner {
    ghost text = { owner_text };

    fn add_to(&self, out: &mut Vec<u8>) -> Result<(), ReportFault> {
        match self {
            Owner::Instance(inst) => inst.add_to(out),
            Owner::Compile(task, slot) => {
                add(out, b"@compile/")?;
                add_number(out, *task)?;
                add(out, b"/")?;
                add_number(out, u64::from(*slot))
            }
            Owner::Disk(disk) => {
                add(out, b"@disk/")?;
                add_number(out, *disk)
            }
        }
    }
}

/// In dotted decimal.
impl Piece for Addr {
    ghost text = { addr_text };

    fn add_to(&self, out: &mut Vec<u8>) -> Result<(), ReportFault> {
        Ok(add_addr(out, self.0)?)
    }
}
