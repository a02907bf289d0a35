ghost use Rattle.std.specs.Prelude.{◌≡◌, ◌<◌};
ghost use Rattle.bosh_entry.specs.Reading.{Gives, variant_at};
ghost use Rattle.bosh_entry.specs.Body.{kind_of, first_of, kinds};

use crate::coded::Coded;
use crate::fault::EntryFault;
use crate::format::Format;
use crate::source::Source;
use bosh_base::{
    Begin, Effect, End, Entry, Loss, Release, Snapshot, Stemcell, TaskError, TaskOpen, Text,
    Update, Write,
};
use std::alloc::Global;

/// Its number in the list of kinds, from 1 on.
fn kind(entry: &Entry) -> u8
    ensures { result ≡ kind_of entry.now }
{
    match entry {
        Entry::Release(_) => 1,
        Entry::Stemcell(_) => 2,
        Entry::Config(_) => 3,
        Entry::TaskOpen(_) => 4,
        Entry::Begin(_) => 5,
        Entry::End(_) => 6,
        Entry::UpdBegin(_) => 7,
        Entry::UpdDone(_) => 8,
        Entry::Gone(_) => 9,
        Entry::TaskDone(_) => 10,
        Entry::TaskError(_) => 11,
        Entry::Snapshot(_) => 12,
        Entry::Effect(_) => 13,
        Entry::Write(_) => 14,
        Entry::Lost(_) => 15,
    }
}

/// The byte before the kind.
fn first(format: Format, kind: u8) -> u8
    ensures { result ≡ first_of format kind }
{
    match format {
        Format::Older => 1,
        Format::Present => { if kind < 13 { 2 } else { 1 } }
    }
}

// The fields of a kind up to 8.
fn fields(alloc: Global, format: Format, kind: u8, from: &mut Source) -> Result<Entry, EntryFault>
    ensures { Gives result from.new.rest.now (variant_at 1 (kinds format) kind from.old.rest.now) }
{
    match kind {
        1 => Release::read(alloc, format, from).map(Entry::Release),
        2 => Stemcell::read(alloc, format, from).map(Entry::Stemcell),
        3 => Text::read(alloc, format, from).map(Entry::Config),
        4 => TaskOpen::read(alloc, format, from).map(Entry::TaskOpen),
        5 => Begin::read(alloc, format, from).map(Entry::Begin),
        6 => End::read(alloc, format, from).map(Entry::End),
        7 => Update::read(alloc, format, from).map(Entry::UpdBegin),
        8 => Update::read(alloc, format, from).map(Entry::UpdDone),
        9.. => later_fields(alloc, format, kind, from),
        0 => Err(EntryFault::NotAnEntry),
    }
}

// The fields of a kind from 9 on.
#[tactic(auto, unfolding(crate::specs::Later::present_at))]
fn later_fields(
    alloc: Global,
    format: Format,
    kind: u8,
    from: &mut Source,
) -> Result<Entry, EntryFault>
    requires { 8 < kind }
    ensures { Gives result from.new.rest.now (variant_at 1 (kinds format) kind from.old.rest.now) }
{
    match kind {
        9 => Update::read(alloc, format, from).map(Entry::Gone),
        10 => from.number().map(Entry::TaskDone),
        11 => TaskError::read(alloc, format, from).map(Entry::TaskError),
        12 => Snapshot::read(alloc, format, from).map(Entry::Snapshot),
        13 => Effect::read(alloc, format, from).map(Entry::Effect),
        14 => Write::read(alloc, format, from).map(Entry::Write),
        15 => match format {
            Format::Older => Err(EntryFault::NotAnEntry),
            Format::Present => Loss::read(alloc, format, from).map(Entry::Lost),
        },
        _ => Err(EntryFault::NotAnEntry),
    }
}

// Its `write` is dear to prove: one arm for each kind of entry, each a function of its own.
impl Coded for Entry {
    ghost use Rattle.bosh_entry.specs.Body.{entry, is_entry, entry_at};

    ghost spelling = { entry };

    ghost fits = { is_entry };

    ghost reading = { entry_at };

    #[tactic(auto, unfolding(crate::specs::Body::entry, crate::specs::Body::fields, crate::specs::Body::is_entry))]
    fn write(&self, out: &mut Vec<u8>) -> Result<(), EntryFault> {
        out.push(first(Format::Present, kind(self)))?;
        out.push(kind(self))?;
        match self {
            Entry::Release(value) => value.write(out),
            Entry::Stemcell(value) => value.write(out),
            Entry::Config(value) => value.write(out),
            Entry::TaskOpen(value) => value.write(out),
            Entry::Begin(value) => value.write(out),
            Entry::End(value) => value.write(out),
            Entry::UpdBegin(value) => value.write(out),
            Entry::UpdDone(value) => value.write(out),
            Entry::Gone(value) => value.write(out),
            Entry::TaskDone(value) => value.write(out),
            Entry::TaskError(value) => value.write(out),
            Entry::Snapshot(value) => value.write(out),
            Entry::Effect(value) => value.write(out),
            Entry::Write(value) => value.write(out),
            Entry::Lost(value) => value.write(out),
        }
    }

    #[tactic(auto, unfolding(crate::specs::Body::entry_at))]
    fn read(alloc: Global, format: Format, from: &mut Source) -> Result<Self, EntryFault> {
        let first_byte = from.byte()?;
        let kind = from.byte()?;
        if first_byte != first(format, kind) {
            return Err(EntryFault::NotAnEntry);
        }
        fields(alloc, format, kind, from)
    }
}
