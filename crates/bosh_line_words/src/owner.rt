ghost use Rattle.std.specs.Prelude.{◌≡◌, IfErr, IfOk, IfSome, option_and_then, true};
ghost use Rattle.std.specs.Option.{option_copied, option_map};
ghost use Rattle.bosh_line_words.specs.Kinds.{behind, compile_machine_of, disk_of, halves, number_of, owner_of, version_of, whose_of};
ghost use Rattle.bosh_line_words.specs.Owners.{AreNamed, IsNamed, owner_from, whose_from};
ghost use Rattle.bosh_line_words.specs.declared.fault.LineFault.TheVariants.{Memory};

use crate::inst::{halves, index_of, inst_of};
use crate::number::number_in;
use crate::{InstWord, LineFault, Place};
use bosh_base::Owner;
use std::alloc::Global;

/// An owner, before it is copied.
#[derive(Clone, Copy)]
pub enum OwnerWord<'a> {
    Instance(InstWord<'a>),
    /// A compile machine: its task and its slot.
    Compile(u64, u32),
    Disk(u64),
}

/// Whose calls are meant: an owner's, or for `*` everybody's.
#[derive(Clone, Copy)]
pub struct Whose<'a>(pub Option<OwnerWord<'a>>);

/// A disk, as `disk-N`.
#[derive(Clone, Copy)]
pub struct DiskWord(pub u64);

pub(crate) fn behind<'a>(front: &[u8], text: &'a [u8]) -> Option<&'a [u8]>
    ensures { option_copied result ≡ behind front.now text.now }
{
    text.strip_prefix(front)
}

fn number_of(text: &[u8]) -> Option<u64>
    ensures { result ≡ number_of text.now }
{
    number_in(0, u64::MAX, text)
}

fn compile_machine_of(text: &[u8]) -> Option<OwnerWord<'static>>
    ensures is { option_map owner_from result ≡ compile_machine_of (halves text.now) }
    ensures named { IfSome result IsNamed }
{
    let (task, slot) = halves(text)?;
    let task = number_of(task)?;
    let slot = index_of(slot)?;
    Some(OwnerWord::Compile(task, slot))
}

fn owner_of(text: &[u8]) -> Option<OwnerWord<'_>>
    ensures is { option_map owner_from result ≡ owner_of text.now }
    ensures named { IfSome result IsNamed }
{
    if let Some(machine) = behind(b"@compile/", text) {
        return compile_machine_of(machine);
    }
    if let Some(number) = behind(b"@disk/", text) {
        let disk = number_of(number)?;
        return Some(OwnerWord::Disk(disk));
    }
    let inst = inst_of(text)?;
    Some(OwnerWord::Instance(inst))
}

fn whose_of(text: &[u8]) -> Option<Whose<'_>>
    ensures is { option_map (λ whose. whose_from whose.0) result ≡ whose_of text.now }
    ensures named { IfSome result (λ whose. AreNamed whose.0) }
{
    if text == b"*".as_slice() {
        return Some(Whose(None));
    }
    let owner = owner_of(text)?;
    Some(Whose(Some(owner)))
}

fn disk_of(text: &[u8]) -> Option<u64>
    ensures { result ≡ disk_of text.now }
{
    number_of(behind(b"disk-", text)?)
}

impl<'a> Place<'a> for Whose<'a> {
    ghost use Rattle.std.specs.Prelude.{◌≡◌, Some, is_some};
    ghost use Rattle.bosh_line_words.specs.Kinds.{whose_of};
    ghost use Rattle.bosh_line_words.specs.Owners.{AreNamed, whose_from};

    ghost fits = { λ text. is_some (whose_of text) };

    ghost reads = { λ text whose. (whose_of text ≡ Some (whose_from whose.0)) × AreNamed whose.0 };

    fn read(text: &'a [u8]) -> Option<Self> {
        whose_of(text)
    }
}

impl<'a> Place<'a> for DiskWord {
    ghost use Rattle.std.specs.Prelude.{◌≡◌, Some, is_some};
    ghost use Rattle.bosh_line_words.specs.Kinds.{disk_of};

    ghost fits = { λ text. is_some (disk_of text) };

    ghost reads = { λ text disk. disk_of text ≡ Some disk.0 };

    fn read(text: &'a [u8]) -> Option<Self> {
        match disk_of(text) {
            Some(disk) => Some(DiskWord(disk)),
            None => None,
        }
    }
}

impl OwnerWord<'_> {
    pub fn owned(self, alloc: Global) -> Result<Owner, LineFault>
        requires { IsNamed self }
        ensures ok { IfOk result (λ owner. owner ≡ owner_from self.entry) }
        ensures refused { IfErr result (λ fault. fault ≡ Memory) }
    {
        match self {
            OwnerWord::Instance(inst) => Ok(Owner::Instance(inst.member.of(alloc, inst.dep)?)),
            OwnerWord::Compile(task, slot) => Ok(Owner::Compile(task, slot)),
            OwnerWord::Disk(disk) => Ok(Owner::Disk(disk)),
        }
    }
}

impl Whose<'_> {
    pub fn owned(self, alloc: Global) -> Result<Option<Owner>, LineFault>
        requires { AreNamed self.0 }
        ensures ok { IfOk result (λ owner. owner ≡ whose_from self.entry.0) }
        ensures refused { IfErr result (λ fault. fault ≡ Memory) }
    {
        match self.0 {
            Some(owner) => Ok(Some(owner.owned(alloc)?)),
            None => Ok(None),
        }
    }
}
