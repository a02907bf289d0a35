//! The instances of goals in words.
use crate::goals::push_print;
use crate::pieces::{push_addr, push_count, push_inst};
use bosh_base::{DiskWant, GoalRow, Make, Mark, NetAddr, Placed, Seq, Spec, State};
use bosh_cases::push_parts;
use std::alloc::AllocError;

fn push_nets(text: &mut Vec<u8>, nets: &Seq<NetAddr>) -> Result<(), AllocError> {
    for net in nets {
        push_parts(text, &[b" ", net.net.as_bytes()])?;
        push_addr(text, b" ", net.addr)?;
    }
    Ok(())
}

fn push_stemcell(text: &mut Vec<u8>, make: &Make) -> Result<(), AllocError> {
    push_parts(
        text,
        &[b" ", make.os.as_slice(), b"/", make.version.as_slice()],
    )
}

/// Adds a word, and what a machine is made from.
pub(crate) fn push_make(text: &mut Vec<u8>, word: &[u8], make: &Make) -> Result<(), AllocError> {
    push_parts(text, &[word, make.az.as_bytes()])?;
    push_stemcell(text, make)?;
    push_parts(text, &[b" ", make.vm.as_slice()])?;
    push_nets(text, &make.nets)
}

fn push_marks(text: &mut Vec<u8>, word: &[u8], marks: &Seq<Mark>) -> Result<(), AllocError> {
    for mark in marks {
        push_parts(text, &[word, mark.name.as_bytes()])?;
        push_print(text, b" ", &mark.fingerprint)?;
        text.push(b'\n')?;
    }
    Ok(())
}

// The text of each file stands between bars.
fn push_files(text: &mut Vec<u8>, files: &Seq<Placed>) -> Result<(), AllocError> {
    for file in files {
        push_parts(
            text,
            &[
                b"file ",
                file.path.as_slice(),
                b" |",
                file.text.as_slice(),
                b"|\n",
            ],
        )?;
    }
    Ok(())
}

fn push_spec(text: &mut Vec<u8>, spec: &Spec) -> Result<(), AllocError> {
    push_marks(text, b"job ", &spec.jobs)?;
    push_marks(text, b"package ", &spec.packages)?;
    push_files(text, &spec.files)
}

fn state_word(state: State) -> &'static [u8] {
    match state {
        State::Running => b" running",
        State::Stopped => b" stopped",
        State::Detached => b" detached",
    }
}

fn push_disk(text: &mut Vec<u8>, disk: &Option<DiskWant>) -> Result<(), AllocError> {
    match disk {
        None => Ok(()),
        Some(want) => {
            push_count(text, b" disk ", u64::from(want.size))?;
            push_parts(text, &[b" ", want.properties.as_slice()])
        }
    }
}

fn push_age(text: &mut Vec<u8>, fresh_after: u64) -> Result<(), AllocError> {
    match fresh_after {
        0 => Ok(()),
        call => push_count(text, b" after ", call),
    }
}

fn push_machine(text: &mut Vec<u8>, row: &GoalRow) -> Result<(), AllocError> {
    push_inst(text, b"row ", &row.inst)?;
    text.extend_from_slice(state_word(row.state))?;
    push_make(text, b" ", &row.make)
}

fn push_row(text: &mut Vec<u8>, row: &GoalRow) -> Result<(), AllocError> {
    push_machine(text, row)?;
    push_disk(text, &row.disk)?;
    push_age(text, row.fresh_after)?;
    text.extend_from_slice(b"\n")
}

/// Adds a line for each instance, and for each part of its spec.
pub(crate) fn push_rows(text: &mut Vec<u8>, rows: &Seq<GoalRow>) -> Result<(), AllocError> {
    for row in rows {
        push_row(text, row)?;
        push_spec(text, &row.spec)?;
    }
    Ok(())
}
