//! The steps of a case.
use crate::stand::Stand;
use bosh_base::{Answer, Name, Text};
use bosh_book::Ask;
use bosh_book_texts::Opened;
use bosh_book_words::{Steps, Tasks, begin_in_map, begin_in_words, claim_in_words, over};
use bosh_case_files::release;
use bosh_case_words::{Worded, number, word};
use bosh_cases::{CaseFault, Given, characters};
use bosh_entry_words::entry;
use bosh_ports::Rig;
use bosh_yaml::Node;
use std::str::SplitWhitespace;

// As `stemcell jammy 1.1`.
fn stemcell_step(stand: &mut Stand, words: &mut SplitWhitespace<'_>) -> Result<(), CaseFault> {
    let os = Name::of(stand.alloc(), word(words)?.as_bytes())?;
    let version = word(words)?.as_bytes();
    let added = stand.book()?.add_stemcell(&os, version);
    stand.tell_answer(added)
}

// As `settle 3 cid 1`.
fn settle_step(stand: &mut Stand, words: &mut SplitWhitespace<'_>) -> Result<(), CaseFault> {
    let n = number(words)?;
    let answer = Answer::of(stand.alloc(), words)?;
    stand.settle(n, answer)
}

// As `state 3 running drained`: the machine has the spec that is wanted of its instance.
fn state_step(stand: &mut Stand, words: &mut SplitWhitespace<'_>) -> Result<(), CaseFault> {
    let n = number(words)?;
    let (running, drained) = (words.next(), words.next());
    let answer = stand.facts(n, running.is_some(), drained.is_some())?;
    stand.settle(n, answer)
}

// As `spoil 3`: the store has a body of no entry at a place, and is loaded.
fn spoil_step(stand: &mut Stand, words: &mut SplitWhitespace<'_>) -> Result<(), CaseFault> {
    let place = number(words)?;
    stand.spoil(place)
}

fn rig_of(word: &str) -> Result<Rig, CaseFault> {
    match word {
        "lost" => Ok(Rig::FailLost),
        "kept" => Ok(Rig::FailKept),
        _ => Err(CaseFault::Form),
    }
}

// As `rig 1 lost` or `rig 1 kept`.
fn rig_step(stand: &mut Stand, words: &mut SplitWhitespace<'_>) -> Result<(), CaseFault> {
    let k = number(words)?;
    let how = rig_of(word(words)?)?;
    if k == 0 {
        return Err(CaseFault::Form);
    }
    let done = stand.book()?.rig(k, how);
    stand.tell_answer(done)
}

// An entry in words.
fn entry_step(stand: &mut Stand, text: &str) -> Result<(), CaseFault> {
    let alloc = stand.alloc();
    let book = stand.book()?;
    let entry = entry(alloc, book.records(), book.entries(), text);
    over(stand, entry, |stand, entry| stand.ask(entry))
}

fn take_words(stand: &mut Stand, text: &str) -> Result<(), CaseFault> {
    let mut words = text.split_whitespace();
    match word(&mut words)? {
        "stemcell" => stemcell_step(stand, &mut words),
        "claim" => claim_in_words(stand, &mut words),
        "settle" => settle_step(stand, &mut words),
        "state" => state_step(stand, &mut words),
        "spoil" => spoil_step(stand, &mut words),
        "do" => stand.carry_out(number(&mut words)?),
        "run" => stand.run(number(&mut words)?),
        "end" => stand.end(number(&mut words)?),
        "abandon" => stand.abandon(number(&mut words)?),
        "reload" => stand.reload(),
        "load" => stand.load(),
        "rig" => rig_step(stand, &mut words),
        "fold" => stand.fold_again(),
        "begin_at" => stand.begin_at(number(&mut words)?),
        verb => begin_in_words(stand.alloc(), stand, verb, &mut words),
    }
}

fn config_step(stand: &mut Stand, file: Result<Text, CaseFault>) -> Result<(), CaseFault> {
    let file = file?;
    let done = stand.book()?.set_config(file.as_slice());
    stand.tell_answer(done)
}

fn release_step(stand: &mut Stand, folder: &Node) -> Result<(), CaseFault> {
    let alloc = stand.alloc();
    let book = stand.book()?;
    let added = book.upload(release(alloc, folder)?);
    stand.tell_answer(added)
}

// `{"config": TEXT}`, `{"release": ..}`, `{"asked": ENTRY}`, `{"version": ENTRIES}` or `{"deploy": ..}`.
fn take_map(stand: &mut Stand, node: &Node) -> Result<(), CaseFault> {
    let alloc = stand.alloc();
    if let Some(file) = node.find(b"config") {
        return config_step(stand, Text::of(alloc, file));
    }
    if let Some(folder) = node.find(b"release") {
        return release_step(stand, folder);
    }
    if let Some(Node::Text(text)) = node.find(b"asked") {
        return entry_step(stand, characters(text)?);
    }
    if let Some(Node::List(parts)) = node.find(b"version") {
        return stand.ask_version(parts.as_slice());
    }
    begin_in_map(alloc, stand, node)
}

impl Steps for Stand {
    fn take_words(&mut self, text: &str) -> Result<(), CaseFault> {
        take_words(self, text)
    }

    fn take_map(&mut self, node: &Node) -> Result<(), CaseFault> {
        take_map(self, node)
    }

    fn end_step(&mut self) -> Result<(), CaseFault> {
        Ok(())
    }
}

impl Tasks for Stand {
    fn begin(&mut self, ask: &Ask) -> Result<(), CaseFault> {
        let task = self.book()?.begin_task(ask);
        self.tell_answer(task.map(Opened))
    }

    fn claim(&mut self, task: u64, worker: u8) -> Result<(), CaseFault> {
        self.claim(task, worker)
    }
}
