use crate::{CaseFault, Given, both, cut, word_of};
use bosh_base::{Inst, Joint, Name, Owner};
use bosh_yaml::Node;
use std::alloc::Global;
use std::str::FromStr;

fn number<T: FromStr>(text: &str) -> Result<T, CaseFault>
where
    T::Err: Drop,
{
    match text.parse::<T>() {
        Ok(number) => Ok(number),
        Err(_) => Err(CaseFault::Form),
    }
}

fn name_of(alloc: Global, text: &str) -> Result<Name, CaseFault> {
    Ok(Name::of(alloc, text.as_bytes())?)
}

fn two_names(alloc: Global, first: &str, second: &str) -> Result<(Name, Name), CaseFault> {
    both(name_of(alloc, first), name_of(alloc, second))
}

fn inst_of(alloc: Global, text: &str) -> Result<Inst, CaseFault> {
    let (dep, rest) = cut(text, '/')?;
    let (group, index) = cut(rest, '/')?;
    let index = number(index)?;
    let (dep, group) = two_names(alloc, dep, group)?;
    Ok(Inst { dep, group, index })
}

/// As `dep/web/0`.
impl Given for Inst {
    fn of(alloc: Global, node: &Node) -> Result<Self, CaseFault> {
        inst_of(alloc, word_of(node)?)
    }
}

fn slot_of(text: &str) -> Result<Owner, CaseFault> {
    let (task, slot) = cut(text, '/')?;
    Ok(Owner::Compile(number(task)?, number(slot)?))
}

/// An instance, a slot as `@compile/2/0`, or a disk as `@disk/3`.
impl Given for Owner {
    fn of(alloc: Global, node: &Node) -> Result<Self, CaseFault> {
        let text = word_of(node)?;
        if let Some(slot) = text.strip_prefix("@compile/") {
            return slot_of(slot);
        }
        match text.strip_prefix("@disk/") {
            Some(disk) => Ok(Owner::Disk(number(disk)?)),
            None => Ok(Owner::Instance(inst_of(alloc, text)?)),
        }
    }
}

// The four words of a link.
fn link_words(text: &str) -> Result<(&str, &str, &str, &str), CaseFault> {
    let (dep, rest) = cut(text, '/')?;
    let (group, rest) = cut(rest, '/')?;
    let (job, link) = cut(rest, '.')?;
    Ok((dep, group, job, link))
}

/// As `dep/web/job.link`.
impl Given for Joint {
    fn of(alloc: Global, node: &Node) -> Result<Self, CaseFault> {
        let (dep, group, job, link) = link_words(word_of(node)?)?;
        let place = two_names(alloc, dep, group);
        let ((dep, group), (job, link)) = both(place, two_names(alloc, job, link))?;
        Ok(Joint {
            dep,
            group,
            job,
            link,
        })
    }
}
