//! Values, as cases write them.
use bosh_base::{Addr, Band, Inst, Joint, Owner};
use bosh_cases::push_parts;
use bosh_ip::add_addr;
use std::alloc::AllocError;

/// Adds a word, and a number.
pub fn push_count(text: &mut Vec<u8>, word: &[u8], number: u64) -> Result<(), AllocError> {
    let mut digits = itoa::Buffer::new();
    push_parts(text, &[word, digits.format(number).as_bytes()])
}

/// Adds a word, and an address.
pub fn push_addr(text: &mut Vec<u8>, word: &[u8], addr: Addr) -> Result<(), AllocError> {
    text.extend_from_slice(word)?;
    add_addr(text, addr.0)
}

/// Adds a word, and a band as `10.0.0.2-10.0.0.9`.
pub fn push_band(text: &mut Vec<u8>, word: &[u8], band: Band) -> Result<(), AllocError> {
    push_addr(text, word, band.first)?;
    push_addr(text, b"-", band.last)
}

/// Adds a word, and an instance as `dep/web/0`.
pub fn push_inst(text: &mut Vec<u8>, word: &[u8], inst: &Inst) -> Result<(), AllocError> {
    push_parts(
        text,
        &[word, inst.dep.as_bytes(), b"/", inst.group.as_bytes()],
    )?;
    push_count(text, b"/", u64::from(inst.index))
}

fn push_slot(text: &mut Vec<u8>, word: &[u8], task: u64, slot: u32) -> Result<(), AllocError> {
    push_parts(text, &[word, b"@compile/"])?;
    push_count(text, b"", task)?;
    push_count(text, b"/", u64::from(slot))
}

fn push_disk(text: &mut Vec<u8>, word: &[u8], disk: u64) -> Result<(), AllocError> {
    push_parts(text, &[word, b"@disk/"])?;
    push_count(text, b"", disk)
}

/// Adds a word, and an owner.
pub fn push_owner(text: &mut Vec<u8>, word: &[u8], owner: &Owner) -> Result<(), AllocError> {
    match owner {
        Owner::Instance(inst) => push_inst(text, word, inst),
        Owner::Compile(task, slot) => push_slot(text, word, *task, *slot),
        Owner::Disk(disk) => push_disk(text, word, *disk),
    }
}

/// Adds a word, and a link as `dep/web/job.link`.
pub fn push_joint(text: &mut Vec<u8>, word: &[u8], joint: &Joint) -> Result<(), AllocError> {
    let Joint {
        dep,
        group,
        job,
        link,
    } = joint;
    push_parts(text, &[word, dep.as_bytes(), b"/", group.as_bytes()])?;
    push_parts(text, &[b"/", job.as_bytes(), b".", link.as_bytes()])
}
