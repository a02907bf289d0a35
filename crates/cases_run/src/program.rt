//! What the words of a program ask for.
use crate::bench::bench;
use crate::table::run_table;
use crate::tally::Tally;
use cases_given::Calls;
use std::alloc::Global;
use std::fs::DirEntry;
use std::process::ExitCode;
use std::rt::{Clock, Env, Files};
use std::{env, fs, io};

/// How the name of a table ends.
pub(crate) const ENDING: &str = ".cases";

fn push_name(alloc: Global, name: &str, names: &mut Vec<String>) -> io::Result<()> {
    if name.ends_with(ENDING) {
        names.push(String::from_str(alloc, name)?)?;
    }
    Ok(())
}

fn push_table<R: Files + AllocGlobal + Drop>(
    rt: &R,
    entry: io::Result<DirEntry<R>>,
    names: &mut Vec<String>,
) -> io::Result<()> {
    match entry {
        Ok(entry) => push_name(rt.alloc(), entry.file_name(), names),
        Err(error) => Err(error),
    }
}

fn push_tables<R: Files + AllocGlobal + Clone + Drop>(
    rt: &R,
    names: &mut Vec<String>,
) -> io::Result<()> {
    for entry in fs::read_dir(rt, ".")? {
        push_table(rt, entry, names)?;
    }
    Ok(())
}

fn tables_here<R: Files + AllocGlobal + Clone + Drop>(rt: &R) -> io::Result<Vec<String>> {
    let mut names = Vec::new(rt.alloc());
    push_tables(rt, &mut names)?;
    names.sort()?;
    Ok(names)
}

fn words<R: Env + AllocGlobal>(rt: &R) -> io::Result<Vec<String>> {
    let words = env::args(rt)?.skip(1).collect(rt.alloc())?;
    Ok(words)
}

fn run_file<R: Files + Print + AllocGlobal, C: Calls>(
    rt: &R,
    calls: &C,
    name: &str,
    tally: &mut Tally,
) -> io::Result<()> {
    let text = fs::read(rt, name)?;
    run_table(rt, calls, name, text.as_slice(), tally)
}

fn run_files<R: Files + Print + AllocGlobal, C: Calls>(
    rt: &R,
    calls: &C,
    names: &[String],
    tally: &mut Tally,
) -> io::Result<()> {
    for name in names {
        run_file(rt, calls, name.as_str(), tally)?;
    }
    tally.print(rt)
}

// Whether all cases of the files passed.
fn have_passed<R: Files + Print + AllocGlobal, C: Calls>(
    rt: &R,
    calls: &C,
    names: &[String],
) -> io::Result<bool> {
    let mut tally = Tally::new(rt.alloc());
    run_files(rt, calls, names, &mut tally)?;
    Ok(tally.has_passed())
}

fn status(is_done: bool) -> ExitCode {
    if is_done {
        ExitCode::SUCCESS
    } else {
        ExitCode::FAILURE
    }
}

// Answers the cases of these tables, or of all tables of the current folder where none is named.
fn run_tables<R: Files + Print + AllocGlobal + Clone + Drop, C: Calls>(
    rt: &R,
    calls: &C,
    names: &[String],
) -> io::Result<bool> {
    match names {
        [] => have_passed(rt, calls, tables_here(rt)?.as_slice()),
        _ => have_passed(rt, calls, names),
    }
}

/// Answers the cases of the tables that the words of the program name, or of all tables of the current folder where
/// there are no words. It prints each case that comes out otherwise than it states, with what it came to, and last how
/// many of each call passed and failed. It succeeds where there are cases and all pass. With the words
/// `bench WORK FILE [ROUNDS]` it prints how many microseconds it takes to do a work so often, or once, with what the last
/// case of the file gives where it is a table, and else with its text.
pub fn run<R: Clock + Env + Files + Print + AllocGlobal + Clone + Drop, C: Calls>(
    rt: &R,
    calls: &C,
) -> io::Result<ExitCode> {
    let words = words(rt)?;
    let is_done = match words.as_slice() {
        [word, work, name, rounds @ ..] if word.as_str() == "bench" => {
            bench(rt, calls, work.as_str(), name.as_str(), rounds)
        }
        names => run_tables(rt, calls, names),
    };
    Ok(status(is_done?))
}
