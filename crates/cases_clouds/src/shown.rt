//! Machines and disks in words.
use bosh_base::{Disk, Inst, Machine, Owner, Seq};
use bosh_cloud::SimCloud;
use bosh_ports::Keeper;
use cases_given::CaseFault;
use cases_words::{Flag, Told, push_part};
use std::alloc::Global;
use std::fmt;

// Whose a machine or a disk is. Of an instance the index is told, since all are of one group.
#[derive(Clone, Copy)]
struct Whose<'a>(&'a Owner);

// Numbers behind a word, where there are any.
#[derive(Clone, Copy)]
struct Listed<'a>(&'static str, &'a Seq<u64>);

#[derive(Clone, Copy)]
struct MachineTold<'a>(&'a Machine);

#[derive(Clone, Copy)]
struct DiskTold<'a>(&'a Disk);

impl fmt::Display for Whose<'_> {
    fn fmt<W: fmt::Write>(&self, f: &mut fmt::Formatter<W>) -> fmt::Result {
        match self.0 {
            Owner::Instance(Inst { index, .. }) => write!(f, "{index}"),
            other => write!(f, "{}", Told(other)),
        }
    }
}

impl fmt::Display for Listed<'_> {
    fn fmt<W: fmt::Write>(&self, f: &mut fmt::Formatter<W>) -> fmt::Result {
        match self.1.len() {
            0 => Ok(()),
            _ => write!(f, " {} {}", self.0, Told(self.1)),
        }
    }
}

fn add_facts<W: fmt::Write>(f: &mut fmt::Formatter<W>, machine: &Machine) -> fmt::Result {
    if let Some(spec) = &machine.spec {
        write!(f, " spec {}", Told(spec))?;
    }
    let running = Flag(machine.running, "running");
    let drained = Flag(machine.drained, "drained");
    write!(f, "{running}{drained}")
}

/// As `vm 1 of 1 by 0 made a`: its number, the call and the instance that created it, and what it was made from; then
/// what it has.
impl fmt::Display for MachineTold<'_> {
    fn fmt<W: fmt::Write>(&self, f: &mut fmt::Formatter<W>) -> fmt::Result {
        let Machine { vm, agent, .. } = self.0;
        let (owner, make) = (Whose(&self.0.owner), Told(&self.0.make.vm));
        write!(f, "vm {vm} of {agent} by {owner} made {make}")?;
        add_facts(f, self.0)?;
        let disks = Listed("disks", &self.0.attached);
        let mounted = Listed("mounted", &self.0.mounted);
        write!(f, "{disks}{mounted}{}", Flag(self.0.silent, "silent"))
    }
}

/// As `disk 1 of 2 by 0 size 10`: its number, the call and the instance that created it, its size and properties; then
/// what it holds.
impl fmt::Display for DiskTold<'_> {
    fn fmt<W: fmt::Write>(&self, f: &mut fmt::Formatter<W>) -> fmt::Result {
        let Disk { disk, tag, .. } = self.0;
        let (owner, want) = (Whose(&self.0.owner), Told(&self.0.want));
        write!(f, "disk {disk} of {tag} by {owner} size {want}")?;
        match self.0.contents.len() {
            0 => Ok(()),
            _ => write!(f, " holds {}", Told(&self.0.contents)),
        }
    }
}

fn push_machines(
    alloc: Global,
    text: &mut String,
    machines: &[Option<Machine>],
) -> Result<(), CaseFault> {
    for slot in machines {
        if let Some(machine) = slot {
            push_part(alloc, text, &MachineTold(machine))?;
        }
    }
    Ok(())
}

fn push_disks(alloc: Global, text: &mut String, disks: &[Option<Disk>]) -> Result<(), CaseFault> {
    for slot in disks {
        if let Some(disk) = slot {
            push_part(alloc, text, &DiskTold(disk))?;
        }
    }
    Ok(())
}

/// What is there in a cloud: machines and disks by number, or `nothing`.
pub(crate) fn there<K: Keeper>(alloc: Global, cloud: &SimCloud<K>) -> Result<String, CaseFault> {
    let mut there = String::new(alloc);
    push_machines(alloc, &mut there, cloud.machines())?;
    push_disks(alloc, &mut there, cloud.disks())?;
    if there.is_empty() {
        there.push_str("nothing")?;
    }
    Ok(there)
}
