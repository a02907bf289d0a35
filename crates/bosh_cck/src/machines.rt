//! What is wrong with the machines of an instance.
ghost use Rattle.std.specs.Prelude.{◌≡◌, ◌∷◌, ◌++◌, [], OnOk};
ghost use Rattle.std.specs.Option.{option_copied};
ghost use Rattle.bosh_cck.specs.Problems.{facts, is_other, machine_problems, missing, others, recorded, silent};
ghost use Rattle.bosh_cck.specs.Tables.{seen};

use crate::CckFault;
use crate::facts::add_facts;
use bosh_base::{Copyable, Machine, Problem, Row, Vm};
use std::alloc::Global;

fn recorded<'a>(vm: Option<Vm>, own: &[&'a Machine]) -> Option<&'a Machine>
    ensures { option_copied result ≡ recorded vm (seen own.now) }
{
    let vm = vm?;
    for machine in own {
        if machine.vm == vm.vm {
            return Some(machine);
        }
    }
    None
}

// Adds that the recorded machine is not there.
fn add_missing(
    alloc: Global,
    row: &Row,
    its: Option<&Machine>,
    problems: &mut Vec<Problem>,
) -> Result<(), CckFault>
    ensures { OnOk result (problems.new.items
        ≡ problems.old.items ++ missing row.now row.now.vm (option_copied its.entry)) }
{
    match (row.vm, its) {
        (Some(vm), None) => {
            let inst = row.inst.copy(alloc)?;
            problems.push(Problem::MissingVm { inst, vm: vm.vm })?;
            Ok(())
        }
        _ => Ok(()),
    }
}

// Adds that the recorded machine does not answer.
fn add_silent(
    alloc: Global,
    row: &Row,
    its: Option<&Machine>,
    problems: &mut Vec<Problem>,
) -> Result<(), CckFault>
    ensures { OnOk result (problems.new.items ≡ problems.old.items ++ silent row.now (option_copied its.entry)) }
{
    match its {
        Some(machine) if machine.silent => {
            let inst = row.inst.copy(alloc)?;
            let vm = machine.vm;
            problems.push(Problem::SilentAgent { inst, vm })?;
            Ok(())
        }
        _ => Ok(()),
    }
}

fn is_other(vm: Option<Vm>, machine: &Machine) -> bool
    ensures { result ≡ is_other vm machine.now }
{
    match vm {
        None => true,
        Some(vm) => machine.vm != vm.vm,
    }
}

fn add_other(
    alloc: Global,
    row: &Row,
    machine: &Machine,
    problems: &mut Vec<Problem>,
) -> Result<(), CckFault>
    ensures { OnOk result (problems.new.items ≡ problems.old.items ++ others row.now (machine.now ∷ [])) }
{
    if !is_other(row.vm, machine) {
        return Ok(());
    }
    let inst = row.inst.copy(alloc)?;
    let vm = machine.vm;
    problems.push(Problem::OtherVm { inst, vm })?;
    Ok(())
}

fn add_others(
    alloc: Global,
    row: &Row,
    own: &[&Machine],
    problems: &mut Vec<Problem>,
) -> Result<(), CckFault>
    ensures { OnOk result (problems.new.items ≡ problems.old.items ++ others row.now (seen own.now)) }
{
    for machine in own {
        add_other(alloc, row, machine, problems)?;
    }
    Ok(())
}

// Adds in what the recorded machine differs from its row, where it answers.
fn add_differences(
    alloc: Global,
    row: &Row,
    its: Option<&Machine>,
    problems: &mut Vec<Problem>,
) -> Result<(), CckFault>
    ensures { OnOk result (problems.new.items ≡ problems.old.items ++ facts row.now (option_copied its.entry)) }
{
    match its {
        Some(machine) if !machine.silent => add_facts(alloc, row, machine, problems),
        _ => Ok(()),
    }
}

/// Adds what is wrong with the machines of an instance.
pub(crate) fn add_machines(
    alloc: Global,
    row: &Row,
    own: &[&Machine],
    problems: &mut Vec<Problem>,
) -> Result<(), CckFault>
    ensures { OnOk result (problems.new.items ≡ problems.old.items ++ machine_problems row.now (seen own.now)) }
{
    let its = recorded(row.vm, own);
    add_missing(alloc, row, its, problems)?;
    add_silent(alloc, row, its, problems)?;
    add_others(alloc, row, own, problems)?;
    add_differences(alloc, row, its, problems)
}
