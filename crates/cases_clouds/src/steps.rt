//! The steps of a case.
use crate::rotting::Damage;
use crate::stand::Stand;
use crate::store::Store;
use bosh_base::{Call, Effect, Entry, Inst, Method, Name, Owner, Text, Write};
use bosh_cloud::{CloudFault, SimCloud};
use bosh_entry::{EntryFault, write};
use bosh_fates::Fate;
use bosh_ports::Rig;
use bosh_yaml::Node;
use cases_given::{CaseFault, both, characters, field, text_at, two};
use cases_words::{Worded, number, number_of, word};
use std::alloc::Global;
use std::str::SplitWhitespace;

fn name(alloc: Global, bytes: &[u8]) -> Result<Name, CaseFault> {
    Ok(Name::of(alloc, bytes)?)
}

// The instance whose calls they are where a step does not say.
fn owner(alloc: Global) -> Result<Owner, CaseFault> {
    let (dep, group) = both(name(alloc, b"dep"), name(alloc, b"web"))?;
    Ok(Owner::Instance(Inst {
        dep,
        group,
        index: 0,
    }))
}

fn make_call(stand: &mut Stand, n: u64, it: &((Owner, Name), Call)) -> Result<(), CaseFault> {
    stand.call(n, &it.0.0, &it.0.1, &it.1)
}

// Generic, since what is asked for is let go after it, which is dear to prove where it has many kinds.
fn with<T: Drop, F: FnOnce(&mut Stand, &T) -> Result<(), CaseFault> + Drop>(
    stand: &mut Stand,
    given: Result<T, CaseFault>,
    ask: F,
) -> Result<(), CaseFault>
    requires { F.IsAlwaysCallable ask }
{
    match given {
        Ok(given) => ask(stand, &given),
        Err(fault) => Err(fault),
    }
}

// As `5 start 1`: the number of the call, and the call.
fn call(
    stand: &mut Stand,
    owner: Result<Owner, CaseFault>,
    n: u64,
    words: &mut SplitWhitespace<'_>,
) -> Result<(), CaseFault> {
    let alloc = stand.alloc();
    let by = both(owner, name(alloc, b"dep"));
    let given: Result<((Owner, Name), Call), CaseFault> = both(by, Call::of(alloc, words));
    with(stand, given, |stand, it| make_call(stand, n, it))
}

fn numbered_call(
    stand: &mut Stand,
    owner: Result<Owner, CaseFault>,
    text: &str,
) -> Result<(), CaseFault> {
    let mut words = text.split_whitespace();
    let n = number(&mut words)?;
    call(stand, owner, n, &mut words)
}

fn write_to(
    cloud: &mut SimCloud<Store>,
    disk: u64,
    text: &str,
) -> Result<Result<(), CloudFault>, CaseFault> {
    if !cloud.has_disk(disk) {
        return Err(CaseFault::Form);
    }
    Ok(cloud.write_disk(disk, text.as_bytes()))
}

// As `write 1 rows`: the disk and the text.
fn write_step(stand: &mut Stand, words: &mut SplitWhitespace<'_>) -> Result<(), CaseFault> {
    let disk = number(words)?;
    let done = write_to(stand.cloud()?, disk, word(words)?)?;
    stand.tell_done(done)
}

fn lose(
    cloud: &mut SimCloud<Store>,
    vm: u64,
    whole: bool,
) -> Result<Result<(), CloudFault>, CaseFault> {
    if !cloud.has_vm(vm) {
        return Err(CaseFault::Form);
    }
    Ok(cloud.lose(vm, whole))
}

// As `lose vm 1` or `lose agent 1`.
fn lose_step(stand: &mut Stand, words: &mut SplitWhitespace<'_>) -> Result<(), CaseFault> {
    let whole = match word(words)? {
        "vm" => true,
        "agent" => false,
        _ => return Err(CaseFault::Form),
    };
    let vm = number(words)?;
    let done = lose(stand.cloud()?, vm, whole)?;
    stand.tell_done(done)
}

fn reload_step(stand: &mut Stand) -> Result<(), CaseFault> {
    let done = stand.cloud()?.reload();
    stand.tell_done(done)
}

// As `rig 1 lost` or `rig 1 kept`.
fn rig_step(stand: &mut Stand, words: &mut SplitWhitespace<'_>) -> Result<(), CaseFault> {
    let k = number(words)?;
    match word(words)? {
        "lost" => stand.load_rigged(k, Rig::FailLost),
        "kept" => stand.load_rigged(k, Rig::FailKept),
        _ => Err(CaseFault::Form),
    }
}

fn entry(n: u64, given: ((Owner, Name), Call)) -> Entry {
    let ((owner, dep), call) = given;
    Entry::Effect(Effect {
        n,
        owner,
        dep,
        call,
    })
}

fn effect(alloc: Global, n: u64, words: &mut SplitWhitespace<'_>) -> Result<Entry, CaseFault> {
    let by = both(owner(alloc), name(alloc, b"dep"));
    let given = both(by, Call::of(alloc, words))?;
    Ok(entry(n, given))
}

fn body_of(alloc: Global, entry: &Entry) -> Result<Vec<u8>, CaseFault> {
    match write(alloc, entry) {
        Ok(body) => Ok(body),
        Err(EntryFault::Memory) => Err(CaseFault::Memory),
        Err(EntryFault::NotAnEntry) => Err(CaseFault::Form),
    }
}

// As `write 1 rows`: the disk and the text.
fn write_entry(alloc: Global, words: &mut SplitWhitespace<'_>) -> Result<Entry, CaseFault> {
    let disk = number(words)?;
    let text = word(words)?.as_bytes().to_vec(alloc)?;
    Ok(Entry::Write(Write {
        disk,
        text: Text::from(text),
    }))
}

// Generic, as `with` is.
fn spelled<T: Drop, F: FnOnce(Global, &T) -> Result<Vec<u8>, CaseFault> + Drop>(
    alloc: Global,
    given: Result<T, CaseFault>,
    spell: F,
) -> Result<Vec<u8>, CaseFault>
    requires { F.IsAlwaysCallable spell }
{
    match given {
        Ok(given) => spell(alloc, &given),
        Err(fault) => Err(fault),
    }
}

// `junk`, the body of a write, or that of the effect of a call.
fn other_body(alloc: Global, words: &mut SplitWhitespace<'_>) -> Result<Vec<u8>, CaseFault> {
    match word(words)? {
        "junk" => Ok(b"junk".to_vec(alloc)?),
        "write" => spelled(alloc, write_entry(alloc, words), body_of),
        n => {
            let given = effect(alloc, number_of(n)?, words);
            spelled(alloc, given, body_of)
        }
    }
}

// As `0 junk`, `0 9 start 1` or `0 write 1 rows`: the place, and the body there.
fn damage(alloc: Global, words: &mut SplitWhitespace<'_>) -> Result<Damage, CaseFault> {
    let place = number(words)?;
    let body = other_body(alloc, words)?;
    Ok(Damage { place, body })
}

fn spoil_step(stand: &mut Stand, words: &mut SplitWhitespace<'_>) -> Result<(), CaseFault> {
    let damage = damage(stand.alloc(), words)?;
    stand.load_spoiled(&damage)
}

fn rot_step(stand: &mut Stand, words: &mut SplitWhitespace<'_>) -> Result<(), CaseFault> {
    let damage = damage(stand.alloc(), words)?;
    stand.load_rotting(damage)
}

fn take_words(stand: &mut Stand, text: &str) -> Result<(), CaseFault> {
    let mut words = text.split_whitespace();
    match word(&mut words)? {
        "write" => write_step(stand, &mut words),
        "lose" => lose_step(stand, &mut words),
        "reload" => reload_step(stand),
        "load" => stand.load_again(),
        "rig" => rig_step(stand, &mut words),
        "spoil" => spoil_step(stand, &mut words),
        "rot" => rot_step(stand, &mut words),
        "faults" => stand.tell_faults(),
        _ => {
            let owner = owner(stand.alloc());
            numbered_call(stand, owner, text)
        }
    }
}

fn fate_of(word: &str) -> Result<Fate, CaseFault> {
    match word {
        "lose" => Ok(Fate::Lose),
        "late" => Ok(Fate::Late),
        _ => Err(CaseFault::Form),
    }
}

// `{"doom": METHOD, "of": OWNER, "k": NUMBER, "fate": "lose"}`; it is of every owner where none is named.
fn doom_step(stand: &mut Stand, node: &Node) -> Result<(), CaseFault> {
    let fate = fate_of(text_at(node, "fate")?)?;
    let (method, k): (Method, u64) = two(stand.alloc(), node, ["doom", "k"])?;
    if k == 0 {
        return Err(CaseFault::Form);
    }
    let owner: Option<Owner> = field(stand.alloc(), node, "of")?;
    let done = stand.cloud()?.doom(method, owner, k, fate);
    stand.tell_done(done)
}

// `{"by": OWNER, "call": WORDS}`, or a fate.
fn take_map(stand: &mut Stand, node: &Node) -> Result<(), CaseFault> {
    match node.find(b"call") {
        Some(Node::Text(text)) => {
            let owner = field(stand.alloc(), node, "by");
            numbered_call(stand, owner, characters(text)?)
        }
        _ => doom_step(stand, node),
    }
}

fn take_step(stand: &mut Stand, node: &Node) -> Result<(), CaseFault> {
    match node {
        Node::Text(text) => take_words(stand, characters(text)?),
        _ => take_map(stand, node),
    }
}

/// Takes the steps of a list, one after the other.
pub(crate) fn take_steps(stand: &mut Stand, given: &Node) -> Result<(), CaseFault> {
    let Node::List(steps) = given else {
        return Err(CaseFault::Form);
    };
    for step in steps.as_slice() {
        take_step(stand, step)?;
    }
    Ok(())
}
