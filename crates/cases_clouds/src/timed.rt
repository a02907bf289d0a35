//! How long calls on a cloud take, and a load of the store that they leave. A case gives the calls on one machine in
//! words, in which `@` stands for its number, and how many `machines` there are to be.
use bosh_base::{Call, Inst, Name, Owner, Seq};
use bosh_cloud::SimCloud;
use bosh_ports::MemKeeper;
use bosh_yaml::Node;
use cases_given::{CaseFault, both, field, items, timed, word_of};
use cases_words::whole;
use std::alloc::Global;
use std::rt::Clock;
use std::time::Duration;

type Cloud = SimCloud<MemKeeper>;

type By = (Owner, Name);

fn name(alloc: Global, bytes: &[u8]) -> Result<Name, CaseFault> {
    Ok(Name::of(alloc, bytes)?)
}

fn by(alloc: Global) -> Result<By, CaseFault> {
    let (dep, group) = both(name(alloc, b"dep"), name(alloc, b"web"))?;
    let inst = Inst {
        dep,
        group,
        index: 0,
    };
    both(Ok(Owner::Instance(inst)), name(alloc, b"dep"))
}

fn call_of(alloc: Global, words: &str, machine: &str) -> Result<Call, CaseFault> {
    let words = words.replace(alloc, "@", machine)?;
    whole(alloc, words.as_str())
}

fn push_calls(
    alloc: Global,
    calls: &mut Vec<Call>,
    words: &[Node],
    machine: u32,
) -> Result<(), CaseFault> {
    let machine = format!(in alloc; "{machine}")?;
    for node in words {
        calls.push(call_of(alloc, word_of(node)?, machine.as_str())?)?;
    }
    Ok(())
}

fn calls_of(alloc: Global, given: &Node) -> Result<Seq<Call>, CaseFault> {
    let machines: u32 = field(alloc, given, "machines")?;
    let words = items(given, "calls")?;
    let mut calls = Vec::new(alloc);
    for place in 0..machines {
        push_calls(alloc, &mut calls, words, place.saturating_add(1))?;
    }
    Ok(Seq::from(calls))
}

fn perform_all(cloud: &mut Cloud, by: &By, calls: &[Call]) -> bool {
    let mut n: u64 = 0;
    for call in calls {
        n = n.saturating_add(1);
        if cloud.perform(n, &by.0, &by.1, call).is_err() {
            return false;
        }
    }
    true
}

// The cloud that calls leave.
fn left(alloc: Global, by: &By, calls: &[Call]) -> Option<Cloud> {
    let mut cloud = SimCloud::load(alloc, MemKeeper::new(alloc)).ok()?;
    match perform_all(&mut cloud, by, calls) {
        true => Some(cloud),
        false => None,
    }
}

// The store after a load of it.
fn loaded(alloc: Global, store: MemKeeper) -> Option<MemKeeper> {
    match SimCloud::load(alloc, store) {
        Ok(cloud) => Some(cloud.into_store()),
        Err(_) => None,
    }
}

/// The time of all calls on a new cloud.
pub(crate) fn time_of_calls(
    clock: &impl Clock,
    alloc: Global,
    given: &Node,
    rounds: u32,
) -> Result<Duration, CaseFault> {
    let (by, calls) = both(by(alloc), calls_of(alloc, given))?;
    timed(
        clock,
        rounds,
        || left(alloc, &by, calls.as_slice()).is_some(),
    )
}

fn time_on(
    clock: &impl Clock,
    alloc: Global,
    store: MemKeeper,
    rounds: u32,
) -> Result<Duration, CaseFault> {
    let mut store = Some(store);
    timed(clock, rounds, || {
        store = store.take().and_then(|store| loaded(alloc, store));
        store.is_some()
    })
}

/// The time to load the store that they leave.
pub(crate) fn time_of_load(
    clock: &impl Clock,
    alloc: Global,
    given: &Node,
    rounds: u32,
) -> Result<Duration, CaseFault> {
    let (by, calls) = both(by(alloc), calls_of(alloc, given))?;
    match left(alloc, &by, calls.as_slice()) {
        Some(cloud) => time_on(clock, alloc, cloud.into_store(), rounds),
        None => Err(CaseFault::Form),
    }
}
