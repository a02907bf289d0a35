ghost use Rattle.std.specs.Prelude.{◌≡◌, ◌==◌, IfErr, IfOk, IfSome, position, true};
ghost use Rattle.std.specs.Option.{option_map};
ghost use Rattle.bosh_base.specs.Name.{is_name};
ghost use Rattle.bosh_line_words.specs.Kinds.{halves, index_of, inst_from, inst_of, member_of, named_half};
ghost use Rattle.bosh_line_words.specs.declared.fault.LineFault.TheVariants.{Memory};

use crate::name::{is_name, name_of};
use crate::number::number_in;
use crate::{LineFault, Place};
use bosh_base::Inst;
use std::alloc::Global;

/// An instance of a deployment, as `GROUP/INDEX`.
#[derive(Clone, Copy)]
pub struct Member<'a> {
    pub group: &'a [u8],
    pub index: u32,
}

/// An instance, as `DEPLOYMENT/GROUP/INDEX`.
#[derive(Clone, Copy)]
pub struct InstWord<'a> {
    pub dep: &'a [u8],
    pub member: Member<'a>,
}

fn first_slash(text: &[u8]) -> Option<usize>
    ensures { result ≡ position (λ byte. byte == 47) text.now }
{
    text.iter().position(|byte| *byte == b'/')
}

pub(crate) fn halves(text: &[u8]) -> Option<(&[u8], &[u8])>
    ensures { option_map (λ half. (half.0.now, half.1.now)) result ≡ halves text.now }
{
    let slash = first_slash(text)?;
    Some((&text[..slash], &text[slash + 1..]))
}

// A name, and what follows its slash.
fn named_half(text: &[u8]) -> Option<(&[u8], &[u8])>
    ensures { option_map (λ half. (half.0.now, half.1.now)) result ≡ named_half (halves text.now) }
{
    match halves(text) {
        Some((front, more)) if is_name(front) => Some((front, more)),
        _ => None,
    }
}

pub(crate) fn index_of(text: &[u8]) -> Option<u32>
    ensures { result ≡ index_of text.now }
{
    match number_in(0, u32::MAX as u64, text) {
        Some(index) => Some(index as u32),
        None => None,
    }
}

pub(crate) fn member_of(text: &[u8]) -> Option<Member<'_>>
    ensures is { option_map (λ member. (member.group.now, member.index)) result ≡ member_of text.now }
    ensures named { IfSome result (λ member. is_name member.group.now ≡ true) }
{
    let (group, index) = named_half(text)?;
    let index = index_of(index)?;
    Some(Member { group, index })
}

pub(crate) fn inst_of(text: &[u8]) -> Option<InstWord<'_>>
    ensures is { option_map (λ inst. inst_from inst.dep.now (inst.member.group.now, inst.member.index)) result ≡ inst_of text.now }
    ensures named { IfSome result (λ inst. (is_name inst.dep.now ≡ true) × (is_name inst.member.group.now ≡ true)) }
{
    let (dep, member) = named_half(text)?;
    let member = member_of(member)?;
    Some(InstWord { dep, member })
}

impl<'a> Place<'a> for Member<'a> {
    ghost use Rattle.std.specs.Prelude.{◌≡◌, Some, is_some, true};
    ghost use Rattle.bosh_base.specs.Name.{is_name};
    ghost use Rattle.bosh_line_words.specs.Kinds.{member_of};

    ghost fits = { λ text. is_some (member_of text) };

    ghost reads = { λ text member. (member_of text ≡ Some (member.group.now, member.index)) × (is_name member.group.now ≡ true) };

    fn read(text: &'a [u8]) -> Option<Self> {
        member_of(text)
    }
}

impl<'a> Place<'a> for InstWord<'a> {
    ghost use Rattle.std.specs.Prelude.{◌≡◌, Some, is_some, true};
    ghost use Rattle.bosh_base.specs.Name.{is_name};
    ghost use Rattle.bosh_line_words.specs.Kinds.{inst_from, inst_of};

    ghost fits = { λ text. is_some (inst_of text) };

    ghost reads = { λ text inst. (inst_of text ≡ Some (inst_from inst.dep.now (inst.member.group.now, inst.member.index))) × (is_name inst.dep.now ≡ true) × (is_name inst.member.group.now ≡ true) };

    fn read(text: &'a [u8]) -> Option<Self> {
        inst_of(text)
    }
}

impl Member<'_> {
    /// This instance of a deployment.
    pub fn of(self, alloc: Global, dep: &[u8]) -> Result<Inst, LineFault>
        requires dep { is_name dep.now ≡ true }
        requires group { is_name self.group.now ≡ true }
        ensures ok { IfOk result (λ inst. inst ≡ inst_from dep.now (self.entry.group.now, self.entry.index)) }
        ensures refused { IfErr result (λ fault. fault ≡ Memory) }
    {
        let dep = name_of(alloc, dep)?;
        let group = name_of(alloc, self.group)?;
        Ok(Inst {
            dep,
            group,
            index: self.index,
        })
    }
}
