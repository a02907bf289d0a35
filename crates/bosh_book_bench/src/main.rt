//! Times a deploy of instances in eight groups to its end by claims and ends of calls, or the fold of its entries. The
//! words are the form, `drive` or `fold`, and the number of instances, at most 512; the time is printed in microseconds.
//! Without words it does nothing.
#![tactic(auto)]

mod driven;

use crate::driven::{MemBook, is_driven, is_told, new_book};
use bosh_base::Entry;
use bosh_bench_deploys::{time_of_deploy, timed};
use bosh_book::Ask;
use bosh_fold::apply;
use bosh_records::Records;
use std::alloc::Global;
use std::process::ExitCode;
use std::rt::Clock;
use std::time::Duration;
use std::{env, io};

/// What is timed.
#[derive(Clone, Copy, Debug, PartialEq, Eq)]
enum Form {
    Drive,
    Fold,
}

fn form_of(word: &str) -> Option<Form> {
    match word {
        "drive" => Some(Form::Drive),
        "fold" => Some(Form::Fold),
        _ => None,
    }
}

// The book is taken apart at the end, since to let one go as a whole is dear to prove.
fn time_for(clock: &impl Clock, alloc: Global, form: Form, instances: u32) -> Option<Duration> {
    match new_book(alloc) {
        Some(mut book) => {
            let took = time_on(&mut book, clock, alloc, form, instances);
            let _store = book.into_store();
            took
        }
        None => None,
    }
}

fn time_on(
    book: &mut MemBook,
    clock: &impl Clock,
    alloc: Global,
    form: Form,
    instances: u32,
) -> Option<Duration> {
    let drive = time_of_drive(book, clock, alloc, instances)?;
    match form {
        Form::Drive => Some(drive),
        Form::Fold => timed(clock, book, |book: &MemBook| folds(alloc, book.entries())),
    }
}

fn time_of_drive(
    book: &mut MemBook,
    clock: &impl Clock,
    alloc: Global,
    instances: u32,
) -> Option<Duration> {
    time_of_deploy(
        clock,
        alloc,
        instances,
        |ask: &Ask| is_done(book, alloc, ask),
    )
}

fn is_done(book: &mut MemBook, alloc: Global, ask: &Ask) -> bool {
    is_told(book, alloc) && is_driven(book, ask)
}

fn folds(alloc: Global, entries: &[Entry]) -> bool {
    let mut records = Records::empty(alloc);
    for entry in entries {
        if apply(&mut records, entry).is_err() {
            return false;
        }
    }
    true
}

fn main(rt: HostRuntime) -> io::Result<ExitCode> {
    let mut words = env::args(&rt)?;
    let _program = words.next();
    let (Some(form), Some(count)) = (words.next(), words.next()) else {
        return Ok(ExitCode::SUCCESS);
    };
    let (Some(form), Ok(count)) = (form_of(form.as_str()), count.as_str().parse::<u32>()) else {
        return Ok(ExitCode::FAILURE);
    };
    match time_for(&rt, rt.alloc(), form, count) {
        Some(took) => {
            println!(rt; "{}", took.as_micros())?;
            Ok(ExitCode::SUCCESS)
        }
        None => Ok(ExitCode::FAILURE),
    }
}
