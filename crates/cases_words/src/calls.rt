//! Calls in words.
use crate::words::{Worded, number, numbers, text_of, word};
use bosh_base::{Call, Digest, DiskWant, Key, KeyWork, Make, Name, Seq, Spec};
use cases_given::{CaseFault, both};
use std::alloc::Global;
use std::str::SplitWhitespace;

fn hint(alloc: Global, words: &mut SplitWhitespace<'_>) -> Result<Seq<u64>, CaseFault> {
    numbers(alloc, word(words)?)
}

fn creation(alloc: Global, words: &mut SplitWhitespace<'_>) -> Result<Call, CaseFault> {
    let (make, disks) = both(Make::of(alloc, words), hint(alloc, words))?;
    Ok(Call::CreateVm { make, disks })
}

fn disk_creation(alloc: Global, words: &mut SplitWhitespace<'_>) -> Result<Call, CaseFault> {
    let (want, vm) = both(DiskWant::of(alloc, words), number(words))?;
    Ok(Call::CreateDisk { want, vm })
}

fn application(alloc: Global, words: &mut SplitWhitespace<'_>) -> Result<Call, CaseFault> {
    let (vm, spec) = both(number(words), Spec::of(alloc, words))?;
    Ok(Call::Apply { vm, spec })
}

fn key(alloc: Global) -> Result<Key, CaseFault> {
    let (os, version) = both(text_of(alloc, "jammy"), text_of(alloc, "1"))?;
    Ok(Key {
        fingerprint: Digest([0; 32]),
        os,
        version,
    })
}

// The work of a package without dependencies.
fn work(alloc: Global, name: &str) -> Result<KeyWork, CaseFault> {
    let (name, key) = both(name_of(alloc, name), key(alloc))?;
    Ok(KeyWork {
        name,
        key,
        deps: Seq::new(alloc),
    })
}

fn name_of(alloc: Global, word: &str) -> Result<Name, CaseFault> {
    Ok(Name::of(alloc, word.as_bytes())?)
}

fn compilation(alloc: Global, words: &mut SplitWhitespace<'_>) -> Result<Call, CaseFault> {
    let (vm, name) = (number(words)?, word(words)?);
    let work = work(alloc, name)?;
    Ok(Call::CompilePackage {
        vm,
        work,
        deps: Seq::new(alloc),
    })
}

fn migration(vm: u64, words: &mut SplitWhitespace<'_>) -> Result<Call, CaseFault> {
    let (from, to) = (number(words)?, number(words)?);
    Ok(Call::MigrateDisk { vm, from, to })
}

fn on_disk(name: &str, vm: u64, disk: u64) -> Result<Call, CaseFault> {
    match name {
        "attach_disk" => Ok(Call::AttachDisk { vm, disk }),
        "detach_disk" => Ok(Call::DetachDisk { vm, disk }),
        "mount_disk" => Ok(Call::MountDisk { vm, disk }),
        "unmount_disk" => Ok(Call::UnmountDisk { vm, disk }),
        _ => Err(CaseFault::Form),
    }
}

// A call on jobs, or none.
fn on_jobs(name: &str, vm: u64) -> Option<Call> {
    match name {
        "ping" => Some(Call::Ping { vm }),
        "get_state" => Some(Call::GetState { vm }),
        "start" => Some(Call::Start { vm }),
        "drain" => Some(Call::Drain { vm }),
        "stop" => Some(Call::Stop { vm }),
        _ => None,
    }
}

// A call on a disk by its number or its tag alone, or none.
fn on_one_disk(name: &str, number: u64) -> Option<Call> {
    match name {
        "delete_disk" => Some(Call::DeleteDisk { disk: number }),
        "has_disk" => Some(Call::HasDisk { disk: number }),
        "find_disk" => Some(Call::FindDisk { tag: number }),
        _ => on_jobs(name, number),
    }
}

// A call with one number, or none.
fn numbered(name: &str, number: u64) -> Option<Call> {
    match name {
        "delete_vm" => Some(Call::DeleteVm { vm: number }),
        "has_vm" => Some(Call::HasVm { vm: number }),
        "find_vm" => Some(Call::FindVm { agent: number }),
        "get_disks" => Some(Call::GetDisks { vm: number }),
        "list_disk" => Some(Call::ListDisk { vm: number }),
        _ => on_one_disk(name, number),
    }
}

fn on_machine(name: &str, words: &mut SplitWhitespace<'_>) -> Result<Call, CaseFault> {
    let vm = number(words)?;
    match numbered(name, vm) {
        Some(call) => Ok(call),
        None if name == "migrate_disk" => migration(vm, words),
        None => on_disk(name, vm, number(words)?),
    }
}

/// As `start 5`: the name of the method, and its fields.
impl Worded for Call {
    fn of(alloc: Global, words: &mut SplitWhitespace<'_>) -> Result<Self, CaseFault> {
        match word(words)? {
            "create_vm" => creation(alloc, words),
            "create_disk" => disk_creation(alloc, words),
            "apply" => application(alloc, words),
            "compile_package" => compilation(alloc, words),
            name => on_machine(name, words),
        }
    }
}
