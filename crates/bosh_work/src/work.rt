ghost use Rattle.std.specs.Prelude.{◌≡◌, ◌==◌};
ghost use Rattle.std.specs.Option.{option_copied};
ghost use Rattle.bosh_work.specs.Finished.{is_machine, key_place, stands_at, without_disk, without_key, without_swept};
ghost use Rattle.bosh_work.specs.Work.{failed_by, given, is_less, number_of, roll_of, taken, update_begun};
ghost use Rattle.bosh_work.specs.Work.{update_finished, with_machine, without_machine};

use crate::{GroupPlace, Groups, Line, MachineName, Places};
use bosh_base::{Inst, Key, Seq, TaskEnd};
use bosh_progress::Rolling;

/// What is left to do of an open task.
#[derive(Drop)]
pub struct Work {
    pub task: u64,
    /// Whose machines are asked first whether they answer.
    pub pings: Line<Inst>,
    /// The compile machines that an earlier task of the deployment left.
    pub sweep: Line<MachineName>,
    /// What its goal compiles. A key is left until it is compiled, by whichever task, and taken while a machine of this one
    /// is for it.
    pub keys: Line<Key>,
    /// How many compile machines it may have at a time.
    pub slots: u32,
    /// How many of its own compile machines are recorded.
    pub machines: usize,
    pub obsolete: Line<Inst>,
    pub changed: Seq<Inst>,
    pub groups: Groups,
    pub disks: Line<u64>,
    /// How its least failed call ended it.
    pub failed: Option<TaskEnd>,
    /// How many of its calls are open.
    pub open: usize,
}

impl Work {
    /// Somebody works on an owner that stands at these places.
    pub fn take(&mut self, places: Places)
        ensures { self.new ≡ taken self.old places }
    {
        self.open = self.open.saturating_add(1);
        self.pings.take(places.part.ping);
        self.obsolete.take(places.part.leaving);
        self.sweep.take(places.sweep);
        self.disks.take(places.deleting);
        self.groups.take(places.part.change);
    }

    /// Nobody does any more.
    pub fn give(&mut self, places: Places)
        ensures { self.new ≡ given self.old places }
    {
        self.open = self.open.saturating_sub(1);
        self.pings.give(places.part.ping);
        self.obsolete.give(places.part.leaving);
        self.sweep.give(places.sweep);
        self.disks.give(places.deleting);
        self.groups.give(places.part.change);
    }

    /// The rolling update of the group of a changed instance.
    pub fn roll(&self, change: Option<GroupPlace>) -> Option<&Rolling>
        ensures { option_copied result ≡ roll_of self.now change }
    {
        let group = self.groups.get(change?.group)?;
        Some(&group.roll)
    }

    /// The update of a changed instance begins.
    pub fn begin_update(&mut self, change: Option<GroupPlace>)
        ensures { self.new ≡ update_begun self.old change }
    {
        self.groups.begin(change);
    }

    /// It is done.
    pub fn finish_update(&mut self, change: Option<GroupPlace>)
        ensures { self.new ≡ update_finished self.old change }
    {
        self.groups.finish(change);
    }

    /// One of its compile machines is recorded from now on; it is for a key.
    pub fn add_machine(&mut self, key: Option<usize>)
        ensures { self.new ≡ with_machine self.old key }
    {
        self.machines = self.machines.saturating_add(1);
        self.keys.take(key);
    }

    /// One of its compile machines is not there any more; it was for a key.
    pub fn drop_machine(&mut self, key: Option<usize>)
        ensures { self.new ≡ without_machine self.old key }
    {
        self.machines = self.machines.saturating_sub(1);
        self.keys.give(key);
    }

    /// A key is compiled: it is finished, where the task has it.
    pub fn finish_key(&mut self, key: &Key)
        ensures { self.new ≡ without_key key.now self.old }
    {
        let place = place_of(self.keys.items.as_slice(), key);
        self.keys.finish(place);
    }

    /// A compile machine that an earlier task left is not there any more: it is finished, where it has this place among
    /// those that are swept.
    pub fn finish_machine(&mut self, name: MachineName, place: usize)
        ensures { self.new ≡ without_swept name place self.old }
    {
        if self.sweeps(name, place) {
            self.sweep.finish(Some(place));
        }
    }

    fn sweeps(&self, name: MachineName, place: usize) -> bool
        ensures { result ≡ stands_at (is_machine name) place self.now.sweep }
    {
        match self.sweep.items.get(place) {
            Some(it) => it.task == name.task && it.slot == name.slot,
            None => false,
        }
    }

    /// A disk is not there any more: it is finished, where it has this place among those that are deleted.
    pub fn finish_disk(&mut self, disk: u64, place: usize)
        ensures { self.new ≡ without_disk disk place self.old }
    {
        if self.deletes(disk, place) {
            self.disks.finish(Some(place));
        }
    }

    fn deletes(&self, disk: u64, place: usize) -> bool
        ensures { result ≡ stands_at (λ it. it == disk) place self.now.disks }
    {
        match self.disks.items.get(place) {
            Some(it) => *it == disk,
            None => false,
        }
    }

    /// Notes how a call failed, where it did; the least number counts.
    pub fn fail(&mut self, failed: Option<TaskEnd>)
        ensures { self.new ≡ failed_by self.old failed }
    {
        if is_less(failed.as_ref(), self.failed.as_ref()) {
            self.failed = failed;
        }
    }
}

fn place_of(keys: &[Key], key: &Key) -> Option<usize>
    ensures { result ≡ key_place key.now keys.now }
{
    keys.iter().position(|it| it == key)
}

fn is_less(one: Option<&TaskEnd>, other: Option<&TaskEnd>) -> bool
    ensures { result ≡ is_less (option_copied one.entry) (option_copied other.entry) }
{
    match (one, other) {
        (Some(one), Some(other)) => number(one) < number(other),
        (Some(_), None) => true,
        (None, _) => false,
    }
}

/// The number of the call that ended a task, and 0 where none did.
pub fn number(end: &TaskEnd) -> u64
    ensures { result ≡ number_of end.now }
{
    match end {
        TaskEnd::Fault { n, .. } | TaskEnd::Gone { n, .. } => *n,
        TaskEnd::Finished | TaskEnd::Interrupted => 0,
    }
}
