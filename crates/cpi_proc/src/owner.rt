ghost use Rattle.std.specs.Prelude.{◌≡◌, ◌++◌, ◌&&◌, true, OnOk, IfErr, option_map};
ghost use Rattle.bosh_base.specs.Name.{is_name};
ghost use Rattle.cpi_wire.specs.Number.{is_small};
ghost use Rattle.cpi_proc.specs.Owner.{cut, inst_in, inst_text, is_owner, owner_in, owner_of_three, owner_text};
ghost use Rattle.cpi_wire.specs.Reading.{Gives};
ghost use Rattle.cpi_wire.specs.declared.fault.WireFault.TheVariants.{Memory};

use crate::decimal::{number_in, small_in};
use bosh_base::{Inst, Owner};
use cpi_wire::{WireFault, add, add_number, name_of};
use std::alloc::Global;

// `DEPLOYMENT/GROUP/INDEX`
fn add_inst(inst: &Inst, out: &mut Vec<u8>) -> Result<(), WireFault>
    ensures ok { OnOk result (out.new.items ≡ out.old.items ++ inst_text inst.now) }
    ensures fits { OnOk result ((is_name inst.now.dep && is_name inst.now.group && is_small inst.now.index) ≡ true) }
    ensures err { IfErr result (λ fault. fault ≡ Memory) }
{
    add(inst.dep.as_bytes(), out)?;
    add(b"/", out)?;
    add(inst.group.as_bytes(), out)?;
    add(b"/", out)?;
    add_number(u64::from(inst.index), out)
}

/// Adds the text of an owner: an instance, `@compile/TASK/SLOT` or `@disk/N`.
pub(crate) fn add_owner(owner: &Owner, out: &mut Vec<u8>) -> Result<(), WireFault>
    ensures ok { OnOk result (out.new.items ≡ out.old.items ++ owner_text owner.now) }
    ensures fits { OnOk result (is_owner owner.now ≡ true) }
    ensures err { IfErr result (λ fault. fault ≡ Memory) }
{
    match owner {
        Owner::Instance(inst) => add_inst(inst, out),
        Owner::Compile(task, slot) => {
            add(b"@compile/", out)?;
            add_number(*task, out)?;
            add(b"/", out)?;
            add_number(u64::from(*slot), out)
        }
        Owner::Disk(disk) => {
            add(b"@disk/", out)?;
            add_number(*disk, out)
        }
    }
}

fn inst_in(alloc: Global, dep: &str, group: &str, index: &str) -> Result<Inst, WireFault>
    ensures { Gives result (inst_in dep.now group.now index.now) }
{
    let index = small_in(index)?;
    let dep = name_of(alloc, dep.as_bytes())?;
    let group = name_of(alloc, group.as_bytes())?;
    Ok(Inst { dep, group, index })
}

fn owner_of_three(alloc: Global, head: &str, second: &str, third: &str) -> Result<Owner, WireFault>
    ensures { Gives result (owner_of_three head.now second.now third.now) }
{
    if head == "@compile" {
        let task = number_in(second)?;
        return Ok(Owner::Compile(task, small_in(third)?));
    }
    Ok(Owner::Instance(inst_in(alloc, head, second, third)?))
}

fn cut(text: &str) -> Option<(&str, &str)>
    ensures { option_map (λ p. (p.0.now, p.1.now)) result ≡ cut text.now }
{
    text.split_once('/')
}

/// The owner that a text names.
#[tactic(auto, unfolding(crate::specs::Owner::owner_in))]
pub(crate) fn owner_in(alloc: Global, text: &str) -> Result<Owner, WireFault>
    ensures { Gives result (owner_in text.now) }
{
    let Some((head, rest)) = cut(text) else {
        return Err(WireFault::NotAValue);
    };
    if head == "@disk" {
        return Ok(Owner::Disk(number_in(rest)?));
    }
    match cut(rest) {
        Some((second, third)) => owner_of_three(alloc, head, second, third),
        None => Err(WireFault::NotAValue),
    }
}
