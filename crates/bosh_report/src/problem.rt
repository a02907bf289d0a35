ghost use Rattle.std.specs.Prelude.{◌≡◌, ◌++◌, OnOk};
ghost use Rattle.bosh_report.specs.Problem.{doubt_line, fact_name, facts_line, loose_disk_line, machine_problem, missing_disk_line, problem_line, problems_text};

use crate::ReportFault;
use crate::owner::{add_disk, add_member, add_vm};
use crate::piece::{Piece, add, add_each, add_number};
use bosh_base::{Inst, Problem, What};

fn fact_name(fact: What) -> &'static [u8]
    ensures { result.now ≡ fact_name fact }
{
    match fact {
        What::Spec => b"spec",
        What::Running => b"running",
        What::Drained => b"drained",
        What::Disks => b"disks",
    }
}

/// What is wrong with a machine of an instance.
fn add_machine_problem(
    out: &mut Vec<u8>,
    inst: &Inst,
    wrong: &[u8],
    vm: u64,
    remedy: &[u8],
) -> Result<(), ReportFault>
    ensures { OnOk result (out.new.items ≡ out.old.items ++ machine_problem inst.now wrong.now vm remedy.now) }
{
    add_member(out, &inst.group, inst.index)?;
    add(out, wrong)?;
    add_vm(out, vm)?;
    add(out, remedy)
}

fn add_doubt(out: &mut Vec<u8>, inst: &Inst, n: u64) -> Result<(), ReportFault>
    ensures { OnOk result (out.new.items ≡ out.old.items ++ doubt_line inst.now n) }
{
    add_member(out, &inst.group, inst.index)?;
    add(out, b" doubt call ")?;
    add_number(out, n)?;
    add(out, b": resolve\n")
}

fn add_facts(out: &mut Vec<u8>, inst: &Inst, fact: What) -> Result<(), ReportFault>
    ensures { OnOk result (out.new.items ≡ out.old.items ++ facts_line inst.now fact) }
{
    add_member(out, &inst.group, inst.index)?;
    add(out, b" facts ")?;
    add(out, fact_name(fact))?;
    add(out, b": none\n")
}

fn add_missing_disk(out: &mut Vec<u8>, inst: &Inst, disk: u64) -> Result<(), ReportFault>
    ensures { OnOk result (out.new.items ≡ out.old.items ++ missing_disk_line inst.now disk) }
{
    add_member(out, &inst.group, inst.index)?;
    add(out, b" missing ")?;
    add_disk(out, disk)?;
    add(out, b": none\n")
}

fn add_loose_disk(out: &mut Vec<u8>, disk: u64) -> Result<(), ReportFault>
    ensures { OnOk result (out.new.items ≡ out.old.items ++ loose_disk_line disk) }
{
    add_disk(out, disk)?;
    add(out, b" loose: none\n")
}

/// What is wrong, and what resolves it.
impl Piece for Problem {
    ghost text = { problem_line };

    fn add_to(&self, out: &mut Vec<u8>) -> Result<(), ReportFault> {
        match self {
            Problem::InDoubt { inst, n } => add_doubt(out, inst, *n),
            Problem::MissingVm { inst, vm } => {
                add_machine_problem(out, inst, b" missing ", *vm, b": resolve\n")
            }
            Problem::SilentAgent { inst, vm } => {
                add_machine_problem(out, inst, b" silent ", *vm, b": resolve\n")
            }
            Problem::OtherVm { inst, vm } => {
                add_machine_problem(out, inst, b" other ", *vm, b": none\n")
            }
            Problem::Facts { inst, what } => add_facts(out, inst, *what),
            Problem::MissingDisk { inst, disk } => add_missing_disk(out, inst, *disk),
            Problem::LooseDisk { disk } => add_loose_disk(out, *disk),
        }
    }
}

/// All problems, or that there are none.
pub(crate) fn add_problems(out: &mut Vec<u8>, problems: &[Problem]) -> Result<(), ReportFault>
    ensures { OnOk result (out.new.items ≡ out.old.items ++ problems_text problems.now) }
{
    if problems.is_empty() {
        add(out, b"no problems\n")
    } else {
        add_each(out, problems)
    }
}
