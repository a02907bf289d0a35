//! Tasks that are stopped at each place in turn, and asked for again.
use crate::stand::{Stand, on_stand};
use bosh_base::{Begin, Copyable, Entry};
use bosh_book_words::take_steps;
use bosh_case_texts::push_count;
use bosh_cases::{CaseFault, Outcome, field, push_parts};
use bosh_ports::Rig;
use bosh_world::Trap;
use bosh_yaml::Node;
use std::alloc::Global;

/// Ways to stop at a call: whether before its effect, and whether the other open calls have theirs.
const CALL_WAYS: [(bool, bool); 4] = [(true, false), (false, false), (true, true), (false, true)];

/// Ways to stop at an append.
const APPEND_WAYS: [Rig; 4] = [
    Rig::StopBefore,
    Rig::StopAfter,
    Rig::FailLost,
    Rig::FailKept,
];

/// What a case asks: steps that are taken before, steps that open the tasks, by how many workers these are carried out,
/// whether they are stopped at appends or else at calls, whether the other calls that are open then have their effects too,
/// and whether the stores are loaded or else restarted after it.
#[derive(Drop)]
struct Plan<'a> {
    setting: &'a Node,
    before: &'a Node,
    tasks: &'a Node,
    workers: u8,
    appends: bool,
    others: bool,
    anew: bool,
}

fn flag(node: &Node, key: &[u8]) -> bool {
    matches!(node.find(key), Some(Node::Bool(true)))
}

fn workers(alloc: Global, given: &Node) -> Result<u8, CaseFault> {
    let workers: Option<u32> = field(alloc, given, "workers")?;
    match u8::try_from(workers.unwrap_or(1)) {
        Ok(workers) => Ok(workers),
        Err(_) => Err(CaseFault::Form),
    }
}

fn plan_of<'a>(alloc: Global, setting: &'a Node, given: &'a Node) -> Result<Plan<'a>, CaseFault> {
    let workers = workers(alloc, given)?;
    match (given.find(b"before"), given.find(b"tasks")) {
        (Some(before), Some(tasks)) => Ok(Plan {
            setting,
            before,
            tasks,
            workers,
            appends: flag(given, b"appends"),
            others: flag(given, b"others"),
            anew: flag(given, b"anew"),
        }),
        _ => Err(CaseFault::Form),
    }
}

// How many entries the book has.
fn entries(stand: &mut Stand) -> Result<usize, CaseFault> {
    Ok(stand.site()?.book().entries().len())
}

fn opened(stand: &mut Stand) -> Result<u64, CaseFault> {
    Ok(stand.site()?.book().records().tasks_opened())
}

// The numbers after one, up to another.
fn numbers(alloc: Global, after: u64, last: u64) -> Result<Vec<u64>, CaseFault> {
    let mut numbers = Vec::new(alloc);
    for number in after..last {
        numbers.push(number.saturating_add(1))?;
    }
    Ok(numbers)
}

impl Plan<'_> {
    // How many ways there are to stop at a place.
    fn ways(&self) -> usize {
        if self.appends || self.others { 4 } else { 2 }
    }

    fn prepare(&self, stand: &mut Stand) -> Result<(), CaseFault> {
        take_steps(stand, self.setting, self.before)
    }

    // Opens the tasks, and carries them out as far as that goes. Calls that are left are given up.
    fn go(&self, stand: &mut Stand) -> Result<(), CaseFault> {
        let before = opened(stand)?;
        take_steps(stand, self.setting, self.tasks)?;
        let tasks = numbers(stand.alloc(), before, opened(stand)?)?;
        self.carry_out(stand, tasks.as_slice())?;
        stand.give_up();
        Ok(())
    }

    fn carry_out(&self, stand: &mut Stand, tasks: &[u64]) -> Result<(), CaseFault> {
        match self.workers {
            1 => stand.drive(tasks),
            workers => stand.work(tasks, workers),
        }
    }

    fn start_anew(&self, stand: &mut Stand) -> Result<(), CaseFault> {
        if self.anew {
            stand.load()
        } else {
            stand.restart()
        }
    }

    // What is there once the tasks were stopped by a trap, and asked for again; nothing where it stopped none.
    fn stopped(&self, stand: &mut Stand, trap: Trap) -> Result<Vec<u8>, CaseFault> {
        self.arm(stand, trap)?;
        self.go(stand)?;
        if !stand.site()?.halted() {
            return Ok(Vec::new(stand.alloc()));
        }
        self.start_anew(stand)?;
        self.go(stand)?;
        stand.state()
    }

    // After the steps that stand before, the trap waits.
    fn arm(&self, stand: &mut Stand, trap: Trap) -> Result<(), CaseFault> {
        match self.prepare(stand) {
            Ok(()) => stand.arm(trap),
            Err(fault) => Err(fault),
        }
    }
}

// How many calls of the method and the owner of one begin among entries.
fn count_of(entries: &[Entry], begin: &Begin) -> u64 {
    let mut count = 0u64;
    for entry in entries {
        if is_like(entry, begin) {
            count = count.saturating_add(1);
        }
    }
    count
}

fn is_like(entry: &Entry, begin: &Begin) -> bool {
    match entry {
        Entry::Begin(other) => {
            other.owner == begin.owner && other.call.method() == begin.call.method()
        }
        _ => false,
    }
}

// The trap that stops in the call of the last of some entries.
fn stop_in(
    alloc: Global,
    entries: &[Entry],
    begin: &Begin,
    way: usize,
) -> Result<Option<Trap>, CaseFault> {
    let (before, all) = CALL_WAYS[way % 4];
    let owner = begin.owner.copy(alloc)?;
    Ok(Some(Trap::Stop {
        before,
        method: begin.call.method(),
        owner: Some(owner),
        k: count_of(entries, begin),
        all,
    }))
}

// The trap that stops at the last of some entries; none where no call begins by it and calls are to be stopped.
fn trap_at(
    alloc: Global,
    entries: &[Entry],
    appends: bool,
    way: usize,
) -> Result<Option<Trap>, CaseFault> {
    if appends {
        let (k, how) = (entries.len() as u64, APPEND_WAYS[way % 4]);
        return Ok(Some(Trap::Store { k, how }));
    }
    match entries.last() {
        Some(Entry::Begin(begin)) => stop_in(alloc, entries, begin, way),
        _ => Ok(None),
    }
}

/// What the stops came to.
#[derive(Drop)]
struct Tally<'a> {
    /// What is there without a stop.
    state: &'a [u8],
    stops: u64,
    others: u64,
    /// What is there after a stop where it is something else.
    text: Vec<u8>,
}

impl Tally<'_> {
    fn add(&mut self, place: usize, way: usize, state: &[u8]) -> Result<(), CaseFault> {
        self.stops = self.stops.saturating_add(1);
        if state == self.state {
            return Ok(());
        }
        self.others = self.others.saturating_add(1);
        push_count(&mut self.text, b"\nentry ", place as u64)?;
        push_count(&mut self.text, b" way ", way as u64)?;
        Ok(push_parts(&mut self.text, &[b":", state])?)
    }
}

fn after_stop(alloc: Global, plan: &Plan<'_>, trap: Trap) -> Result<Vec<u8>, CaseFault> {
    on_stand(alloc, |stand: &mut Stand| plan.stopped(stand, trap))
}

// Stops at the last of some entries, in one way.
fn try_way(
    alloc: Global,
    plan: &Plan<'_>,
    entries: &[Entry],
    way: usize,
    tally: &mut Tally<'_>,
) -> Result<(), CaseFault> {
    match trap_at(alloc, entries, plan.appends, way)? {
        Some(trap) => {
            let state = after_stop(alloc, plan, trap)?;
            tally.add(entries.len(), way, state.as_slice())
        }
        None => Ok(()),
    }
}

fn try_ways(
    alloc: Global,
    plan: &Plan<'_>,
    entries: &[Entry],
    tally: &mut Tally<'_>,
) -> Result<(), CaseFault> {
    for way in 0..plan.ways() {
        try_way(alloc, plan, entries, way, tally)?;
    }
    Ok(())
}

// Stops at each of some entries.
fn try_all(
    alloc: Global,
    plan: &Plan<'_>,
    entries: &[Entry],
    tally: &mut Tally<'_>,
) -> Result<(), CaseFault> {
    for place in 0..entries.len() {
        try_ways(alloc, plan, &entries[..place + 1], tally)?;
    }
    Ok(())
}

fn push_state(text: &mut Vec<u8>, state: &[u8]) -> Result<(), CaseFault> {
    Ok(push_parts(text, &[b"\nas without a stop:", state, b"\n"])?)
}

fn push_tally(text: &mut Vec<u8>, tally: &Tally<'_>) -> Result<(), CaseFault> {
    push_count(text, b"", tally.stops)?;
    push_count(text, b" stops, otherwise after ", tally.others)?;
    push_parts(text, &[tally.text.as_slice()])?;
    push_state(text, tally.state)
}

fn tried(
    alloc: Global,
    plan: &Plan<'_>,
    entries: &[Entry],
    state: &[u8],
) -> Result<Vec<u8>, CaseFault> {
    let mut tally = Tally {
        state,
        stops: 0,
        others: 0,
        text: Vec::new(alloc),
    };
    try_all(alloc, plan, entries, &mut tally)?;
    let mut text = Vec::new(alloc);
    push_tally(&mut text, &tally)?;
    Ok(text)
}

// Carries the tasks out without a stop, and then stops at each of their entries.
fn compared(alloc: Global, plan: &Plan<'_>, stand: &mut Stand) -> Result<Vec<u8>, CaseFault> {
    plan.prepare(stand)?;
    let first = entries(stand)?;
    plan.go(stand)?;
    let state = stand.state()?;
    match stand.site()?.book().entries().get(first..) {
        Some(entries) => tried(alloc, plan, entries, state.as_slice()),
        None => Err(CaseFault::Form),
    }
}

/// What there is after tasks that were stopped at each place in turn and asked for again, beside what there is without.
pub(crate) fn stops(alloc: Global, setting: &Node, given: &Node) -> Result<Outcome, CaseFault> {
    let plan = plan_of(alloc, setting, given)?;
    let told = on_stand(alloc, |stand: &mut Stand| compared(alloc, &plan, stand))?;
    Ok(Outcome::bytes(told))
}
