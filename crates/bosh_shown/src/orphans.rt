ghost use Rattle.std.specs.Prelude.{◌≡◌, ◌++◌, IfOk, OnOk, option_map};
ghost use Rattle.std.specs.Option.{option_copied, option_to_list};
ghost use Rattle.bosh_shown.specs.Orphans.{loose_line, orphan_lines};

use bosh_base::{CopyFault, Copyable, OrphanLine, Seq};
use bosh_records::{LooseDisk, Records};
use std::alloc::Global;

fn orphan_line(alloc: Global, it: &LooseDisk) -> Result<OrphanLine, CopyFault>
    ensures { IfOk result (λ line. line ≡ loose_line it.now) }
{
    Ok(OrphanLine {
        disk: it.orphan.disk,
        size: it.orphan.want.size,
        inst: it.orphan.inst.copy(alloc)?,
        doubt: it.orphan.doubt.is_some(),
    })
}

fn push_line(
    alloc: Global,
    it: Option<&LooseDisk>,
    lines: &mut Vec<OrphanLine>,
) -> Result<(), CopyFault>
    ensures { OnOk result (lines.new.items ≡ lines.old.items
        ++ option_to_list (option_map loose_line (option_copied it.entry))) }
{
    if let Some(it) = it {
        lines.push(orphan_line(alloc, it)?)?;
    }
    Ok(())
}

/// The orphaned disks by number; of each whether its deletion is in doubt. Want of memory is the one fault.
pub fn orphan_lines(alloc: Global, records: &Records) -> Result<Seq<OrphanLine>, CopyFault>
    ensures { IfOk result (λ lines. lines ≡ orphan_lines records.now.orphans.places.entries) }
{
    let mut lines = Vec::new(alloc);
    for (_, it) in records.orphans() {
        push_line(alloc, it.as_ref(), &mut lines)?;
    }
    Ok(Seq::from(lines))
}
