//! The steps of a case.
use crate::stand::Stand;
use bosh_base::{Inst, Name, Reply, Text};
use bosh_book::Ask;
use bosh_book_texts::Opened;
use bosh_book_words::{
    Steps, Tasks, begin_in_map, begin_in_words, claim_in_words, next, worker_of,
};
use bosh_case_files::release;
use bosh_case_words::{number, number_of, word};
use bosh_cases::{CaseFault, Given, field};
use bosh_ports::Rig;
use bosh_running_sites::Harm;
use bosh_site_words::trap;
use bosh_yaml::Node;
use std::alloc::Global;
use std::str::SplitWhitespace;

// As `stemcell jammy 1.1`.
fn stemcell_step(stand: &mut Stand, words: &mut SplitWhitespace<'_>) -> Result<(), CaseFault> {
    let os = Name::of(stand.alloc(), word(words)?.as_bytes())?;
    let version = word(words)?.as_bytes();
    let added = stand.site()?.add_stemcell(&os, version);
    stand.tell_answer(added)
}

fn config_step(stand: &mut Stand, file: Result<Text, CaseFault>) -> Result<(), CaseFault> {
    let file = file?;
    let done = stand.site()?.set_config(file.as_slice());
    stand.tell_answer(done)
}

fn tasks_of(alloc: Global, words: &mut SplitWhitespace<'_>) -> Result<Vec<u64>, CaseFault> {
    let mut tasks = Vec::new(alloc);
    for word in words {
        tasks.push(number_of(word)?)?;
    }
    Ok(tasks)
}

// As `drive 1 2`.
fn drive_step(stand: &mut Stand, words: &mut SplitWhitespace<'_>) -> Result<(), CaseFault> {
    let tasks = tasks_of(stand.alloc(), words)?;
    stand.drive(tasks.as_slice())
}

// As `crew 3 1 2`: so many workers, and the tasks.
fn crew_step(stand: &mut Stand, words: &mut SplitWhitespace<'_>) -> Result<(), CaseFault> {
    let workers = worker_of(number(words)?)?;
    let tasks = tasks_of(stand.alloc(), words)?;
    stand.work(tasks.as_slice(), workers)
}

// As `write dep/web/0 hello`.
fn write_step(stand: &mut Stand, words: &mut SplitWhitespace<'_>) -> Result<(), CaseFault> {
    let inst: Inst = next(stand.alloc(), words)?;
    write(stand, &inst, words)
}

fn write(stand: &mut Stand, inst: &Inst, words: &mut SplitWhitespace<'_>) -> Result<(), CaseFault> {
    let text = word(words)?;
    let done = stand.site()?.write_disk(inst, text.as_bytes());
    stand.tell_answer(done)
}

// As `read dep/web/0`.
fn read_step(stand: &mut Stand, words: &mut SplitWhitespace<'_>) -> Result<(), CaseFault> {
    let inst: Inst = next(stand.alloc(), words)?;
    stand.read(&inst)
}

// As `lose vm dep/web/0` or `lose agent dep/web/0`.
fn lose_step(stand: &mut Stand, words: &mut SplitWhitespace<'_>) -> Result<(), CaseFault> {
    let whole = match word(words)? {
        "vm" => true,
        "agent" => false,
        _ => return Err(CaseFault::Form),
    };
    let inst: Inst = next(stand.alloc(), words)?;
    let done = stand.site()?.lose(&inst, whole);
    stand.tell_answer(done)
}

// As `rig_cloud 7 lost` or `rig_cloud 7 kept`.
fn rig_step(stand: &mut Stand, words: &mut SplitWhitespace<'_>) -> Result<(), CaseFault> {
    let k = number(words)?;
    match word(words)? {
        "lost" => stand.load_rigged(k, Rig::FailLost),
        "kept" => stand.load_rigged(k, Rig::FailKept),
        _ => Err(CaseFault::Form),
    }
}

// What only asks.
fn told_step(
    stand: &mut Stand,
    verb: &str,
    words: &mut SplitWhitespace<'_>,
) -> Result<(), CaseFault> {
    match verb {
        "armed" => stand.tell_armed(),
        "opening" => stand.tell_opening(),
        "halted" => stand.tell_halted(),
        "there" => stand.tell_there(),
        "read" => read_step(stand, words),
        "current" => stand.tell_is_current(number(words)?),
        verb => trap_step(stand, verb, words),
    }
}

// A trap is set, or a task is asked for.
fn trap_step(
    stand: &mut Stand,
    verb: &str,
    words: &mut SplitWhitespace<'_>,
) -> Result<(), CaseFault> {
    let trap = trap(stand.alloc(), verb, words)?;
    match trap {
        Some(trap) => stand.arm(trap),
        None => begin_in_words(stand.alloc(), stand, verb, words),
    }
}

// What stops and starts the director, or changes the stores.
fn start_step(
    stand: &mut Stand,
    verb: &str,
    words: &mut SplitWhitespace<'_>,
) -> Result<(), CaseFault> {
    match verb {
        "restart" => stand.restart(),
        "load" => stand.load(),
        "rig_cloud" => rig_step(stand, words),
        "spoil" => stand.load_harmed(Harm::Spoil(number(words)?)),
        "spoil_cloud" => stand.load_harmed_cloud(Harm::Spoil(number(words)?)),
        "refuse_reload" => stand.load_harmed(Harm::Refuse),
        "refuse_cloud_reload" => stand.load_harmed_cloud(Harm::Refuse),
        "write" => write_step(stand, words),
        "lose" => lose_step(stand, words),
        verb => told_step(stand, verb, words),
    }
}

fn take_words(stand: &mut Stand, text: &str) -> Result<(), CaseFault> {
    let mut words = text.split_whitespace();
    match word(&mut words)? {
        "stemcell" => stemcell_step(stand, &mut words),
        "claim" => claim_in_words(stand, &mut words),
        "perform" => stand.perform(number(&mut words)?),
        "settle" => stand.settle(number(&mut words)?),
        "abandon" => stand.abandon(number(&mut words)?),
        "end" => end_step(stand, number(&mut words)?),
        "drive" => drive_step(stand, &mut words),
        "crew" => crew_step(stand, &mut words),
        verb => start_step(stand, verb, &mut words),
    }
}

fn end_step(stand: &mut Stand, task: u64) -> Result<(), CaseFault> {
    let end = stand.site()?.end_task(task);
    stand.tell_answer(end)
}

fn release_step(stand: &mut Stand, folder: &Node) -> Result<(), CaseFault> {
    let alloc = stand.alloc();
    let site = stand.site()?;
    let added = site.upload(release(alloc, folder)?);
    stand.tell_answer(added)
}

// `{"say": COMMAND, "reply": REPLY}`.
fn say_step(stand: &mut Stand, node: &Node) -> Result<(), CaseFault> {
    let alloc = stand.alloc();
    let command: u32 = field(alloc, node, "say")?;
    let site = stand.site()?;
    let reply: Reply = field(alloc, node, "reply")?;
    let said = site.say(command, reply);
    stand.tell_answer(said)
}

// `{"config": TEXT}`, `{"release": ..}`, `{"say": .., "reply": ..}` or `{"deploy": ..}`.
fn take_map(stand: &mut Stand, node: &Node) -> Result<(), CaseFault> {
    let alloc = stand.alloc();
    if let Some(file) = node.find(b"config") {
        return config_step(stand, Text::of(alloc, file));
    }
    if let Some(folder) = node.find(b"release") {
        return release_step(stand, folder);
    }
    if let Some(_) = node.find(b"say") {
        return say_step(stand, node);
    }
    begin_in_map(alloc, stand, node)
}

/// Of each step is told on a line what was answered and which moves it made.
impl Steps for Stand {
    fn take_words(&mut self, text: &str) -> Result<(), CaseFault> {
        take_words(self, text)
    }

    fn take_map(&mut self, node: &Node) -> Result<(), CaseFault> {
        take_map(self, node)
    }

    fn end_step(&mut self) -> Result<(), CaseFault> {
        self.tell_moves()
    }
}

impl Tasks for Stand {
    fn begin(&mut self, ask: &Ask) -> Result<(), CaseFault> {
        let task = self.site()?.begin_task(ask);
        self.tell_answer(task.map(Opened))
    }

    fn claim(&mut self, task: u64, worker: u8) -> Result<(), CaseFault> {
        self.claim(task, worker)
    }
}
