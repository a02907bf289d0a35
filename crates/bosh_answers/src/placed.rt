//! Files that were placed on machines.
ghost use Rattle.std.specs.Prelude.{◌≡◌, IfOk, find};
ghost use Rattle.std.specs.Option.{option_copied};
ghost use Rattle.std.specs.Str.{bytes_eq};
ghost use Rattle.bosh_answers.specs.Placed.{first_placed, is_of, placed, placed_in, shown_file};
ghost use Rattle.bosh_base.specs.declared.reply.Reply.TheVariants as replies;

use crate::{AnswerFault, refused};
use bosh_base::{Inst, Machine, Owner, Placed, Reply, Spec, Text};
use bosh_refusals::SessionFault;
use std::alloc::Global;

fn contents(alloc: Global, bytes: &[u8]) -> Result<Reply, AnswerFault>
    ensures { IfOk result (λ reply. reply ≡ replies.Contents bytes.now) }
{
    Ok(Reply::Contents(Text::from(Vec::from_slice(alloc, bytes)?)))
}

fn file_of<'a>(files: &'a [Placed], path: &[u8]) -> Option<&'a Placed>
    ensures { option_copied result ≡ find (λ file. bytes_eq file.path path.now) files.now }
{
    files.iter().find(|file| file.path.as_slice() == path)
}

fn placed<'a>(spec: Option<&'a Spec>, path: &[u8]) -> Option<&'a Placed>
    ensures { option_copied result ≡ placed path.now (option_copied spec.entry) }
{
    match spec {
        Some(spec) => file_of(spec.files.as_slice(), path),
        None => None,
    }
}

fn is_of(machine: &Machine, inst: &Inst) -> bool
    ensures { result ≡ is_of inst.now machine.now }
{
    match &machine.owner {
        Owner::Instance(owner) => owner == inst,
        _ => false,
    }
}

// The file of a path on a machine, where that is one of the instance.
fn placed_in<'a>(machine: Option<&'a Machine>, inst: &Inst, path: &[u8]) -> Option<&'a Placed>
    ensures { option_copied result ≡ placed_in inst.now path.now (option_copied machine.entry) }
{
    let machine = machine?;
    if is_of(machine, inst) {
        placed(machine.spec.as_ref(), path)
    } else {
        None
    }
}

// The first file of a path on a machine of an instance.
fn first_placed<'a>(machines: &'a [Option<Machine>], inst: &Inst, path: &[u8]) -> Option<&'a Placed>
    ensures { option_copied result ≡ first_placed inst.now path.now machines.now }
{
    for slot in machines {
        if let Some(file) = placed_in(slot.as_ref(), inst, path) {
            return Some(file);
        }
    }
    None
}

/// Shows a file of a path that was placed on a live machine of an instance.
pub fn show_file(
    alloc: Global,
    machines: &[Option<Machine>],
    inst: &Inst,
    path: Text,
) -> Result<Reply, AnswerFault>
    ensures { IfOk result (λ reply. reply ≡ shown_file path (first_placed inst.now path machines.now)) }
{
    match first_placed(machines, inst, path.as_slice()) {
        Some(file) => contents(alloc, file.text.as_slice()),
        None => refused(alloc, SessionFault::NoFile { path }),
    }
}
