//! Openings of tasks that cases write in words.
use bosh_base::{Copyable, Digest, Entry, Goal, Inst, Seq, TaskKind, TaskOpen};
use bosh_book_words::{next, written};
use bosh_case_words::{number, number_of, word};
use bosh_cases::CaseFault;
use std::alloc::Global;
use std::str::SplitWhitespace;

/// What the next words of an opening write.
#[derive(Clone, Copy, Debug, PartialEq, Eq)]
enum Part {
    Deployment,
    Changed,
    Obsolete,
    Disks,
    /// The place of the entry whose goal it has.
    Goal,
    /// What it has not.
    Without,
}

// The part that begins with a word.
fn part_of(word: &str) -> Option<Part> {
    match word {
        "of" => Some(Part::Deployment),
        "changed" => Some(Part::Changed),
        "obsolete" => Some(Part::Obsolete),
        "disks" => Some(Part::Disks),
        "goal" => Some(Part::Goal),
        "without" => Some(Part::Without),
        _ => None,
    }
}

// A kind that names nothing.
fn plain_kind(word: &str) -> Option<TaskKind> {
    match word {
        "deploy" => Some(TaskKind::Deploy),
        "fix" => Some(TaskKind::Fix),
        "delete" => Some(TaskKind::DeleteDeployment),
        "clean-up" => Some(TaskKind::CleanUp),
        _ => None,
    }
}

fn kind_on(word: &str, inst: Inst) -> Result<TaskKind, CaseFault> {
    match word {
        "recreate" => Ok(TaskKind::Recreate(inst)),
        "start" => Ok(TaskKind::Start(inst)),
        "stop" => Ok(TaskKind::Stop(inst)),
        "resolve" => Ok(TaskKind::Resolve(inst)),
        _ => Err(CaseFault::Form),
    }
}

// A kind that names a disk or an instance.
fn naming_kind(
    alloc: Global,
    word: &str,
    words: &mut SplitWhitespace<'_>,
) -> Result<TaskKind, CaseFault> {
    if word == "delete-disk" {
        return Ok(TaskKind::DeleteDisk(number(words)?));
    }
    kind_on(word, next(alloc, words)?)
}

fn kind(alloc: Global, words: &mut SplitWhitespace<'_>) -> Result<TaskKind, CaseFault> {
    let word = word(words)?;
    match plain_kind(word) {
        Some(kind) => Ok(kind),
        None => naming_kind(alloc, word, words),
    }
}

// Adds an item to a list.
fn add<T: Drop>(list: &mut Seq<T>, item: Result<T, CaseFault>) -> Result<(), CaseFault> {
    match list.push(item?) {
        Ok(()) => Ok(()),
        Err(_) => Err(CaseFault::Memory),
    }
}

// Puts a value in the place of another, or of none.
fn put<T: Drop>(place: &mut Option<T>, value: Result<T, CaseFault>) -> Result<(), CaseFault> {
    *place = Some(value?);
    Ok(())
}

// The goal of the entry at a place, counted from 1.
fn goal_at(alloc: Global, entries: &[Entry], place: u64) -> Result<Goal, CaseFault> {
    let Some(before) = place.checked_sub(1) else {
        return Err(CaseFault::Form);
    };
    match entries.get(before as usize) {
        Some(Entry::TaskOpen(opening)) => match &opening.goal {
            Some(goal) => Ok(goal.copy(alloc)?),
            None => Err(CaseFault::Form),
        },
        _ => Err(CaseFault::Form),
    }
}

fn goal(alloc: Global, entries: &[Entry], word: &str) -> Result<Goal, CaseFault> {
    goal_at(alloc, entries, number_of(word)?)
}

fn set<T: Drop>(place: &mut T, value: T) -> Result<(), CaseFault> {
    *place = value;
    Ok(())
}

fn take_offers(alloc: Global, goal: &mut Option<Goal>) -> Result<(), CaseFault> {
    match goal {
        Some(goal) => set(&mut goal.offers, Seq::new(alloc)),
        None => Err(CaseFault::Form),
    }
}

// Takes out what a word names: the manifest's digest, or the offers of the goal.
fn take_out(alloc: Global, opening: &mut TaskOpen, word: &str) -> Result<(), CaseFault> {
    match word {
        "source" => set(&mut opening.source, None),
        "offers" => take_offers(alloc, &mut opening.goal),
        _ => Err(CaseFault::Form),
    }
}

fn fill_part(
    alloc: Global,
    entries: &[Entry],
    opening: &mut TaskOpen,
    part: Part,
    word: &str,
) -> Result<(), CaseFault> {
    match part {
        Part::Deployment => put(&mut opening.dep, written(alloc, word)),
        Part::Changed => add(&mut opening.changed, written(alloc, word)),
        Part::Obsolete => add(&mut opening.obsolete, written(alloc, word)),
        Part::Disks => add(&mut opening.disks, number_of(word)),
        Part::Goal => put(&mut opening.goal, goal(alloc, entries, word)),
        Part::Without => take_out(alloc, opening, word),
    }
}

fn fill(
    alloc: Global,
    entries: &[Entry],
    opening: &mut TaskOpen,
    words: &mut SplitWhitespace<'_>,
) -> Result<(), CaseFault> {
    let mut part = Part::Deployment;
    for word in words {
        match part_of(word) {
            Some(next) => part = next,
            None => fill_part(alloc, entries, opening, part, word)?,
        }
    }
    Ok(())
}

fn source_of(kind: &TaskKind) -> Option<Digest> {
    match kind {
        TaskKind::Deploy | TaskKind::Fix => Some(Digest([0; 32])),
        _ => None,
    }
}

fn empty(alloc: Global, task: u64, kind: TaskKind) -> TaskOpen {
    TaskOpen {
        task,
        source: source_of(&kind),
        kind,
        dep: None,
        goal: None,
        changed: Seq::new(alloc),
        obsolete: Seq::new(alloc),
        disks: Seq::new(alloc),
    }
}

// A value that was filled. Generic, since to let an opening go is dear to prove.
fn filled<T: Drop>(value: T, done: Result<(), CaseFault>) -> Result<T, CaseFault> {
    match done {
        Ok(()) => Ok(value),
        Err(fault) => Err(fault),
    }
}

/// As `1 deploy of dep changed dep/web/0 goal 3`: the goal is that of the entry at a place, counted from 1. A deploy has
/// a source where it is not `without source`.
pub fn opening(
    alloc: Global,
    entries: &[Entry],
    words: &mut SplitWhitespace<'_>,
) -> Result<Entry, CaseFault> {
    let task = number(words)?;
    let mut opening = empty(alloc, task, kind(alloc, words)?);
    let done = fill(alloc, entries, &mut opening, words);
    Ok(Entry::TaskOpen(filled(opening, done)?))
}
