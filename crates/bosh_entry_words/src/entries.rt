//! Entries that cases write in words, as those of a book are told.
use crate::openings::opening;
use bosh_base::{
    Answer, Begin, Call, Digest, DiskWant, End, Entry, Failure, Key, KeyWork, Make, NetAddr, Owner,
    Release, Seq, Spec, TaskError, Text, Update,
};
use bosh_book_words::{next, written};
use bosh_case_words::{Worded, number, number_after, number_of, text_of, word};
use bosh_cases::{CaseFault, both};
use bosh_records::Records;
use std::alloc::Global;
use std::str::SplitWhitespace;

/// The stemcell of all machines that cases write.
const STEMCELL: (&str, &str) = ("jammy", "1.1");
/// The network of all their addresses.
const NETWORK: &str = "net";

fn stemcell(alloc: Global) -> Result<(Text, Text), CaseFault> {
    both(text_of(alloc, STEMCELL.0), text_of(alloc, STEMCELL.1))
}

fn address(alloc: Global, word: &str) -> Result<NetAddr, CaseFault> {
    let (net, addr) = both(written(alloc, NETWORK), written(alloc, word))?;
    Ok(NetAddr { net, addr })
}

fn addresses(alloc: Global, word: &str) -> Result<Seq<NetAddr>, CaseFault> {
    let mut nets = Vec::new(alloc);
    nets.push(address(alloc, word)?)?;
    Ok(Seq::from(nets))
}

fn make_of(alloc: Global, zone: &str, properties: &str, addr: &str) -> Result<Make, CaseFault> {
    let place = both(written(alloc, zone), addresses(alloc, addr));
    let made = both(stemcell(alloc), text_of(alloc, properties));
    let (((os, version), vm), (az, nets)) = both(made, place)?;
    Ok(Make {
        os,
        version,
        az,
        vm,
        nets,
    })
}

// As `z1 10.0.0.10`, or as `z1 {"cpu":4} 10.0.0.10` with cloud properties.
fn make(alloc: Global, words: &mut SplitWhitespace<'_>) -> Result<Make, CaseFault> {
    let (zone, next) = (word(words)?, word(words)?);
    if next.starts_with('{') {
        return make_of(alloc, zone, next, word(words)?);
    }
    make_of(alloc, zone, "null", next)
}

fn numbers(alloc: Global, words: &mut SplitWhitespace<'_>) -> Result<Seq<u64>, CaseFault> {
    let mut numbers = Vec::new(alloc);
    for word in words {
        numbers.push(number_of(word)?)?;
    }
    Ok(Seq::from(numbers))
}

// As `z1 10.0.0.10 1`: what the machine is made from, and the disks that it is to be near.
fn creation(alloc: Global, words: &mut SplitWhitespace<'_>) -> Result<Call, CaseFault> {
    let (make, disks) = both(make(alloc, words), numbers(alloc, words))?;
    Ok(Call::CreateVm { make, disks })
}

// As `1 size 10`: the machine that it is to be near, and the size.
fn disk_creation(alloc: Global, words: &mut SplitWhitespace<'_>) -> Result<Call, CaseFault> {
    let vm = number(words)?;
    let Ok(size) = u32::try_from(number_after(words, "size")?) else {
        return Err(CaseFault::Form);
    };
    let properties = text_of(alloc, "null")?;
    let want = DiskWant { size, properties };
    Ok(Call::CreateDisk { want, vm })
}

// As `1 -`: the machine, and a spec without jobs.
fn application(alloc: Global, words: &mut SplitWhitespace<'_>) -> Result<Call, CaseFault> {
    let vm = number(words)?;
    if word(words)? != "-" {
        return Err(CaseFault::Form);
    }
    let spec = Spec {
        jobs: Seq::new(alloc),
        packages: Seq::new(alloc),
        files: Seq::new(alloc),
    };
    Ok(Call::Apply { vm, spec })
}

fn fingerprint(releases: &[Release], package: &str) -> Result<Digest, CaseFault> {
    for release in releases {
        for it in release.packages.iter() {
            if it.name.as_bytes() == package.as_bytes() {
                return Ok(it.fingerprint);
            }
        }
    }
    Err(CaseFault::Form)
}

// A package of the releases, which needs no other.
fn work(alloc: Global, releases: &[Release], package: &str) -> Result<KeyWork, CaseFault> {
    let fingerprint = fingerprint(releases, package)?;
    let (name, (os, version)) = both(written(alloc, package), stemcell(alloc))?;
    Ok(KeyWork {
        name,
        key: Key {
            fingerprint,
            os,
            version,
        },
        deps: Seq::new(alloc),
    })
}

// As `1 p`: the machine, and the package.
fn compilation(
    alloc: Global,
    releases: &[Release],
    words: &mut SplitWhitespace<'_>,
) -> Result<Call, CaseFault> {
    let (vm, package) = (number(words)?, word(words)?);
    let work = work(alloc, releases, package)?;
    Ok(Call::CompilePackage {
        vm,
        work,
        deps: Seq::new(alloc),
    })
}

fn made(
    alloc: Global,
    releases: &[Release],
    words: &mut SplitWhitespace<'_>,
) -> Result<Call, CaseFault> {
    match word(words)? {
        "create_vm" => creation(alloc, words),
        "create_disk" => disk_creation(alloc, words),
        "apply" => application(alloc, words),
        _ => compilation(alloc, releases, words),
    }
}

fn call(
    alloc: Global,
    releases: &[Release],
    words: &mut SplitWhitespace<'_>,
) -> Result<Call, CaseFault> {
    match word(&mut words.clone()?)? {
        "create_vm" | "create_disk" | "apply" | "compile_package" => made(alloc, releases, words),
        _ => Call::of(alloc, words),
    }
}

fn worker(words: &mut SplitWhitespace<'_>) -> Result<u8, CaseFault> {
    match u8::try_from(number_after(words, "worker")?) {
        Ok(worker) => Ok(worker),
        Err(_) => Err(CaseFault::Form),
    }
}

// The owner of a call, and the call.
fn owned_call(
    alloc: Global,
    releases: &[Release],
    words: &mut SplitWhitespace<'_>,
) -> Result<(Owner, Call), CaseFault> {
    let owner = next(alloc, words);
    both(owner, call(alloc, releases, words))
}

// As `1 task 1 worker 0 dep/web/0 start 1`.
// Dear to prove: a call of 22 kinds stands beside its owner.
fn begin(
    alloc: Global,
    releases: &[Release],
    words: &mut SplitWhitespace<'_>,
) -> Result<Entry, CaseFault> {
    let (n, task) = (number(words)?, number_after(words, "task")?);
    let worker = worker(words)?;
    let (owner, call) = owned_call(alloc, releases, words)?;
    Ok(Entry::Begin(Begin {
        n,
        task,
        worker,
        owner,
        call,
    }))
}

// As `1 cid 1`.
fn end(alloc: Global, words: &mut SplitWhitespace<'_>) -> Result<Entry, CaseFault> {
    let n = number(words)?;
    let answer = Answer::of(alloc, words)?;
    Ok(Entry::End(End { n, answer }))
}

// As `1 dep/web/0`.
fn update(alloc: Global, words: &mut SplitWhitespace<'_>) -> Result<Update, CaseFault> {
    let task = number(words)?;
    let inst = next(alloc, words)?;
    Ok(Update { task, inst })
}

fn begun(alloc: Global, words: &mut SplitWhitespace<'_>) -> Result<Entry, CaseFault> {
    Ok(Entry::UpdBegin(update(alloc, words)?))
}

fn done(alloc: Global, words: &mut SplitWhitespace<'_>) -> Result<Entry, CaseFault> {
    Ok(Entry::UpdDone(update(alloc, words)?))
}

fn gone(alloc: Global, words: &mut SplitWhitespace<'_>) -> Result<Entry, CaseFault> {
    Ok(Entry::Gone(update(alloc, words)?))
}

fn cause(words: &mut SplitWhitespace<'_>) -> Result<Failure, CaseFault> {
    match word(words)? {
        "interrupted" => Ok(Failure::Interrupted),
        "call" => Ok(Failure::Call(number(words)?)),
        "gone" => Ok(Failure::Gone(number(words)?)),
        _ => Err(CaseFault::Form),
    }
}

// As `1 interrupted`, `1 call 6` or `1 gone 7`.
fn error(words: &mut SplitWhitespace<'_>) -> Result<Entry, CaseFault> {
    let task = number(words)?;
    let cause = cause(words)?;
    Ok(Entry::TaskError(TaskError { task, cause }))
}

// The config that is recorded.
fn config(alloc: Global, records: &Records) -> Result<Entry, CaseFault> {
    match records.config() {
        Some(file) => Ok(Entry::Config(Text::from(Vec::from_slice(alloc, file)?))),
        None => Err(CaseFault::Form),
    }
}

fn entry_of(
    alloc: Global,
    records: &Records,
    entries: &[Entry],
    words: &mut SplitWhitespace<'_>,
) -> Result<Entry, CaseFault> {
    match word(words)? {
        "Config" => config(alloc, records),
        "TaskOpen" => opening(alloc, entries, words),
        "Begin" => begin(alloc, records.releases(), words),
        "End" => end(alloc, words),
        "UpdBegin" => begun(alloc, words),
        "UpdDone" => done(alloc, words),
        "Gone" => gone(alloc, words),
        "TaskDone" => Ok(Entry::TaskDone(number(words)?)),
        "TaskError" => error(words),
        _ => Err(CaseFault::Form),
    }
}

// A value after which no more words stand. Generic, since to let an entry go is dear to prove.
fn at_end<T: Drop>(value: T, words: &mut SplitWhitespace<'_>) -> Result<T, CaseFault> {
    match words.next() {
        None => Ok(value),
        Some(_) => Err(CaseFault::Form),
    }
}

/// The entry that a text writes, beside what is recorded and the entries before it.
pub fn entry(
    alloc: Global,
    records: &Records,
    entries: &[Entry],
    text: &str,
) -> Result<Entry, CaseFault> {
    let mut words = text.split_whitespace();
    let entry = entry_of(alloc, records, entries, &mut words)?;
    at_end(entry, &mut words)
}
