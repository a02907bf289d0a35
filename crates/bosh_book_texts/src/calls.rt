//! Calls in words.
use bosh_base::{Answer, Call, Make, Seq, Spec};
use bosh_book::Permit;
use bosh_case_texts::{push_addr, push_count, push_owner};
use bosh_cases::push_parts;
use std::alloc::AllocError;

// Cloud properties, where there are any.
fn push_properties(text: &mut Vec<u8>, properties: &[u8]) -> Result<(), AllocError> {
    if properties == b"null".as_slice() {
        return Ok(());
    }
    push_parts(text, &[b" ", properties])
}

/// Adds what a machine is made from, as ` z1 10.0.0.10`: the zone, the cloud properties and the addresses.
pub fn push_make(text: &mut Vec<u8>, make: &Make) -> Result<(), AllocError> {
    push_parts(text, &[b" ", make.az.as_bytes()])?;
    push_properties(text, make.vm.as_slice())?;
    for net in make.nets.iter() {
        push_addr(text, b" ", net.addr)?;
    }
    Ok(())
}

// Adds numbers, each after a blank.
fn push_numbers(text: &mut Vec<u8>, numbers: &[u64]) -> Result<(), AllocError> {
    for number in numbers {
        push_count(text, b" ", *number)?;
    }
    Ok(())
}

// The numbers that a call names, in order.
fn named(call: &Call) -> (Option<u64>, Option<u64>, Option<u64>) {
    match call {
        Call::CreateVm { .. } => (None, None, None),
        Call::DeleteVm { vm }
        | Call::HasVm { vm }
        | Call::GetDisks { vm }
        | Call::Ping { vm }
        | Call::GetState { vm }
        | Call::Apply { vm, .. }
        | Call::Start { vm }
        | Call::Drain { vm }
        | Call::Stop { vm }
        | Call::ListDisk { vm }
        | Call::CompilePackage { vm, .. }
        | Call::CreateDisk { vm, .. } => (Some(*vm), None, None),
        Call::FindVm { agent } => (Some(*agent), None, None),
        Call::FindDisk { tag } => (Some(*tag), None, None),
        Call::DeleteDisk { disk } | Call::HasDisk { disk } => (Some(*disk), None, None),
        Call::AttachDisk { vm, disk }
        | Call::DetachDisk { vm, disk }
        | Call::MountDisk { vm, disk }
        | Call::UnmountDisk { vm, disk } => (Some(*vm), Some(*disk), None),
        Call::MigrateDisk { vm, from, to } => (Some(*vm), Some(*from), Some(*to)),
    }
}

fn push_named(text: &mut Vec<u8>, call: &Call) -> Result<(), AllocError> {
    let (first, second, third) = named(call);
    for number in [first, second, third] {
        if let Some(number) = number {
            push_count(text, b" ", number)?;
        }
    }
    Ok(())
}

// What else a call names: a make with a hint, a spec, a wanted disk, or a package.
fn push_given(text: &mut Vec<u8>, call: &Call) -> Result<(), AllocError> {
    match call {
        Call::CreateVm { make, disks } => push_creation(text, make, disks),
        Call::CreateDisk { want, .. } => push_count(text, b" size ", u64::from(want.size)),
        Call::CompilePackage { work, .. } => push_parts(text, &[b" ", work.name.as_bytes()]),
        Call::Apply { spec, .. } => push_spec(text, spec),
        _ => Ok(()),
    }
}

/// Adds the jobs of a spec, each after a blank, or ` -` where it has none.
pub fn push_spec(text: &mut Vec<u8>, spec: &Spec) -> Result<(), AllocError> {
    if spec.jobs.is_empty() {
        return push_parts(text, &[b" -"]);
    }
    for job in spec.jobs.iter() {
        push_parts(text, &[b" ", job.name.as_bytes()])?;
    }
    Ok(())
}

fn push_creation(text: &mut Vec<u8>, make: &Make, disks: &Seq<u64>) -> Result<(), AllocError> {
    push_make(text, make)?;
    push_numbers(text, disks.as_slice())
}

/// Adds a call, as `apply 1 web` or `create_vm z1 10.0.0.10`.
pub fn push_call(text: &mut Vec<u8>, call: &Call) -> Result<(), AllocError> {
    push_parts(text, &[call.method().name().as_bytes()])?;
    push_named(text, call)?;
    push_given(text, call)
}

/// Adds a call that is permitted: its number, its owner and what is asked.
pub fn push_permit(text: &mut Vec<u8>, permit: &Permit) -> Result<(), AllocError> {
    push_count(text, b"call ", permit.n())?;
    push_owner(text, b" ", permit.owner())?;
    text.push(b' ')?;
    push_call(text, permit.call())
}

fn answer_word(answer: &Answer) -> &'static [u8] {
    match answer {
        Answer::Done => b"done",
        Answer::Yes => b"yes",
        Answer::No => b"no",
        Answer::Built(_) => b"built",
        Answer::Gone => b"gone",
        _ => b"failed",
    }
}

fn push_found(text: &mut Vec<u8>, found: Option<u64>) -> Result<(), AllocError> {
    match found {
        Some(number) => push_count(text, b"found ", number),
        None => push_parts(text, &[b"found none"]),
    }
}

/// Adds a word where something is so.
pub fn push_flag(text: &mut Vec<u8>, word: &[u8], flag: bool) -> Result<(), AllocError> {
    if flag {
        push_parts(text, &[word])
    } else {
        Ok(())
    }
}

fn push_facts(
    text: &mut Vec<u8>,
    spec: Option<&Spec>,
    running: bool,
    drained: bool,
) -> Result<(), AllocError> {
    push_parts(text, &[b"facts"])?;
    match spec {
        Some(spec) => push_spec(text, spec)?,
        None => push_parts(text, &[b" none"])?,
    }
    push_flag(text, b" running", running)?;
    push_flag(text, b" drained", drained)
}

/// Adds an answer, as `done`, `cid 1`, `found none`, `disks 1 2` or `facts web running`.
pub fn push_answer(text: &mut Vec<u8>, answer: &Answer) -> Result<(), AllocError> {
    match answer {
        Answer::Cid(number) => push_count(text, b"cid ", *number),
        Answer::Found(found) => push_found(text, *found),
        Answer::Disks(disks) => {
            push_parts(text, &[b"disks"])?;
            push_numbers(text, disks.as_slice())
        }
        Answer::Facts {
            spec,
            running,
            drained,
        } => push_facts(text, spec.as_ref(), *running, *drained),
        _ => push_parts(text, &[answer_word(answer)]),
    }
}
