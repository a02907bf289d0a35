ghost use Rattle.std.specs.Prelude.{◌≡◌, IfOk, OnErr, OnOk};
ghost use Rattle.bosh_records.specs.Arrivals.{arrivals};
ghost use Rattle.bosh_fold.specs.ArrivalsWith.{arrivals_with};
ghost use Rattle.bosh_records.specs.Ordered.{AreOrdered};
ghost use Rattle.bosh_records.specs.Recorded.{kept, recorded};
ghost use Rattle.bosh_fold.specs.Learned.{learned};
ghost use Rattle.bosh_fold.specs.Learns.{IsAlike, Learns};
ghost use Rattle.bosh_fold.specs.Planned.{Brings, IsPlanned, arrivals_after, roomy_for};
ghost use Rattle.bosh_fold.specs.Room.{HasRoom};
ghost use Rattle.bosh_fold.specs.declared.change.Change.TheVariants as changes;

use crate::anew::plan_snapshot;
use crate::beginning::learn_begin;
use crate::closing::{learn_done, learn_error};
use crate::ending::learn_end;
use crate::opening::learn_opening;
use crate::updating::{learn_update_begin, learn_updated};
use bosh_base::{Copyable, Entry, Offer, Release, Seq, Stemcell, TaskEnd, Text};
use bosh_drops::put;
use bosh_plan::{
    Begun, Ended, Opened, Updated, plan_begin, plan_done, plan_end, plan_error, plan_gone,
    plan_opening, plan_update_done,
};
use bosh_records::{Records, RecordsFault};

/// What one more entry changes in the records: all that takes memory is made already.
#[derive(Drop)]
pub enum Change {
    Release(Release),
    Stemcell(Stemcell),
    Config(Text),
    Opened(Opened),
    Begun(Begun),
    Ended(Ended),
    Updated(Updated),
    Offers(Seq<Offer>),
    End(TaskEnd),
    Records(Box<Records>),
    Nothing,
}

/// What an entry changes. It takes all the memory that is needed: just the places that the entry wants are made, and what
/// is recorded stays as it is.
pub fn plan(records: &mut Records, entry: &Entry) -> Result<Change, RecordsFault>
    ensures room { IfOk result (λ change. HasRoom records.new change) }
    ensures planned { IfOk result (λ change. IsPlanned records.old records.new entry.now change) }
    ensures made { OnOk result (recorded records.new ≡ roomy_for records.old entry.now (recorded records.old)) }
    ensures comes { IfOk result (λ change. Brings entry.now change) }
    ensures same { arrivals records.new ≡ arrivals records.old }
    ensures alike { IsAlike records.old records.new }
{
    let change = plan_entry(records, entry);
    records.tell_order();
    change
}

fn plan_entry(records: &mut Records, entry: &Entry) -> Result<Change, RecordsFault>
    ensures room { IfOk result (λ change. HasRoom records.new change) }
    ensures planned { IfOk result (λ change. IsPlanned records.old records.new entry.now change) }
    ensures made { OnOk result (recorded records.new ≡ roomy_for records.old entry.now (recorded records.old)) }
    ensures alike { kept (recorded records.new) ≡ kept (recorded records.old) }
{
    match entry {
        Entry::Release(release) => plan_release(records, release),
        Entry::Stemcell(stemcell) => plan_stemcell(records, stemcell),
        Entry::Config(file) => Ok(Change::Config(file.copy(records.alloc)?)),
        Entry::TaskOpen(opening) => plan_opening(records, opening).map(Change::Opened),
        Entry::Begin(begin) => plan_begin(records, begin).map(Change::Begun),
        Entry::End(end) => plan_end(records, end).map(Change::Ended),
        Entry::UpdDone(update) => plan_update_done(records, update).map(Change::Updated),
        Entry::Gone(update) => plan_gone(records, update).map(Change::Updated),
        Entry::TaskDone(task) => plan_done(records, *task).map(Change::Offers),
        Entry::TaskError(error) => plan_error(records, error).map(Change::End),
        Entry::Snapshot(snapshot) => plan_snapshot(records.alloc, snapshot).map(Change::Records),
        Entry::UpdBegin(_) | Entry::Effect(_) | Entry::Write(_) | Entry::Lost(_) => Ok(
            Change::Nothing,
        ),
    }
}

fn plan_release(records: &mut Records, release: &Release) -> Result<Change, RecordsFault>
    ensures room { IfOk result (λ change. HasRoom records.new change) }
    ensures planned { IfOk result (λ change. change ≡ changes.Release release.now) }
    ensures same { recorded records.new ≡ recorded records.old }
{
    records.releases.reserve(1)?;
    Ok(Change::Release(release.copy(records.alloc)?))
}

fn plan_stemcell(records: &mut Records, stemcell: &Stemcell) -> Result<Change, RecordsFault>
    ensures room { IfOk result (λ change. HasRoom records.new change) }
    ensures planned { IfOk result (λ change. change ≡ changes.Stemcell stemcell.now) }
    ensures same { recorded records.new ≡ recorded records.old }
{
    records.stemcells.reserve(1)?;
    Ok(Change::Stemcell(stemcell.copy(records.alloc)?))
}

/// Takes what a planned entry changes into the records. It takes no memory.
pub fn learn(records: &mut Records, entry: &Entry, change: Change)
    requires { HasRoom records.old change }
    ensures all { recorded records.new ≡ learned entry.now change (recorded records.old) }
    ensures came { arrivals records.new ≡ arrivals_after change (arrivals records.old) }
    ensures ordered { AreOrdered (recorded records.new) }
{
    take_in(records, entry, change);
    records.tell_order();
}

fn take_in(records: &mut Records, entry: &Entry, change: Change)
    requires { HasRoom records.old change }
    ensures { recorded records.new ≡ learned entry.now change (recorded records.old) }
{
    match change {
        Change::Release(release) => records.releases.push_reserved(release),
        Change::Stemcell(stemcell) => records.stemcells.push_reserved(stemcell),
        Change::Config(file) => put(&mut records.config, Some(file)),
        Change::Opened(opened) => learn_opening(records, opened),
        Change::Begun(begun) => learn_begin(records, begun),
        Change::Ended(ended) => learn_end(records, ended),
        Change::Updated(updated) => learn_updated(records, entry, updated),
        Change::Offers(offers) => learn_done(records, entry, offers),
        Change::End(end) => learn_error(records, entry, end),
        Change::Records(anew) => put(records, Box::into_inner(anew)),
        Change::Nothing => learn_update_begin(records, entry),
    }
}

/// Takes one more entry into the records. For want of memory nothing changes.
#[tactic(auto, using(crate::proofs::LearnsLemmas::one_learned))]
pub fn apply(records: &mut Records, entry: &Entry) -> Result<(), RecordsFault>
    ensures learns { OnOk result (Learns records.old entry.now records.new) }
    ensures alike { OnErr result (IsAlike records.old records.new) }
    ensures ok { OnOk result (arrivals records.new ≡ arrivals_with entry.now (arrivals records.old)) }
    ensures err { OnErr result (arrivals records.new ≡ arrivals records.old) }
{
    let change = plan(records, entry)?;
    learn(records, entry, change);
    Ok(())
}
