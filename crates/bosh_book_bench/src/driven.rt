//! A task that is carried out to its end.
use bosh_base::{Answer, Call, Name, TaskEnd};
use bosh_bench_deploys::CONFIG;
use bosh_book::{Ask, Book, Claim, Permit};
use bosh_ports::MemKeeper;
use std::alloc::Global;

/// How many calls a task may make.
const MOST_CALLS: usize = 10_000;

/// A book over a store in memory.
pub(crate) type MemBook = Book<MemKeeper>;

// Each call is done.
fn answer_to(permit: &Permit) -> Answer {
    match permit.call() {
        Call::CreateVm { .. } => Answer::Cid(permit.n()),
        _ => Answer::Done,
    }
}

// Ends the call of a permit; where that is refused it is given up.
fn settle(book: &mut MemBook, permit: Permit) -> bool {
    let answer = answer_to(&permit);
    match book.settle(permit, answer) {
        Ok(()) => true,
        Err((permit, answer, fault)) => give_up(book, permit, answer, fault),
    }
}

// Generic, since an answer and a refusal that are let go are dear to prove.
fn give_up<A: Drop, E: Drop>(book: &mut MemBook, permit: Permit, _answer: A, _fault: E) -> bool {
    book.abandon(permit);
    false
}

// Claims work and ends its call.
fn work(book: &mut MemBook, task: u64) -> bool {
    match book.claim(task, 0).ok() {
        Some(Claim::Work(permit)) => settle(book, permit),
        Some(Claim::Wait) => false,
        Some(Claim::Over) => false,
        None => false,
    }
}

fn is_done(book: &mut MemBook, task: u64) -> bool {
    is_finished(book.end_task(task).ok())
}

fn is_finished(end: Option<TaskEnd>) -> bool {
    matches!(end, Some(TaskEnd::Finished))
}

/// Whether a task is done that is carried out from its opening to its end, by claims and ends of calls alone.
pub(crate) fn is_driven(book: &mut MemBook, ask: &Ask) -> bool {
    let Some(task) = book.begin_task(ask).ok() else {
        return false;
    };
    for _ in 0..MOST_CALLS {
        if !work(book, task) {
            break;
        }
    }
    is_done(book, task)
}

/// A new book.
pub(crate) fn new_book(alloc: Global) -> Option<MemBook> {
    Book::load(alloc, MemKeeper::new(alloc)).ok()
}

fn is_told_of(book: &mut MemBook, os: &Name) -> bool {
    book.set_config(CONFIG.as_bytes()).ok().is_some() && book.add_stemcell(os, b"1").ok().is_some()
}

/// Whether the book knows the cloud config and the stemcell now.
pub(crate) fn is_told(book: &mut MemBook, alloc: Global) -> bool {
    match Name::of(alloc, b"jammy").ok() {
        Some(os) => is_told_of(book, &os),
        None => false,
    }
}
