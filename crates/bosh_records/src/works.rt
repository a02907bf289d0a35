ghost use Rattle.std.specs.Prelude.{◌≡◌};
ghost use Rattle.std.specs.Ordering.{nat_cmp};
ghost use Rattle.bosh_records.specs.Changes.{with_left, with_pinged};
ghost use Rattle.bosh_records.specs.Table.{changed, each_thing};
ghost use Rattle.bosh_work.specs.Finished.{without_disk, without_key, without_swept};
ghost use Rattle.bosh_work.specs.Work.{failed_by, given, taken, update_begun, update_finished, with_machine};
ghost use Rattle.bosh_work.specs.Work.{without_machine};

use crate::Table;
use bosh_base::{Key, TaskEnd};
use bosh_work::{GroupPlace, MachineName, Places, Work};

impl Table<u64, Work> {
    /// Somebody works on an owner for a task.
    pub fn take(&mut self, task: &u64, places: Places)
        ensures { self.new.places.entries ≡ changed nat_cmp task.now (λ it. taken it places) self.old.places.entries }
    {
        if let Some(place) = self.places.get_mut(task) {
            if let Some(work) = place {
                work.take(places);
            }
        }
    }

    /// Nobody does any more.
    pub fn give(&mut self, task: &u64, places: Places)
        ensures { self.new.places.entries ≡ changed nat_cmp task.now (λ it. given it places) self.old.places.entries }
    {
        if let Some(place) = self.places.get_mut(task) {
            if let Some(work) = place {
                work.give(places);
            }
        }
    }

    /// The update of a changed instance begins.
    pub fn begin_update(&mut self, task: &u64, change: Option<GroupPlace>)
        ensures { self.new.places.entries ≡ changed nat_cmp task.now (λ it. update_begun it change) self.old.places.entries }
    {
        if let Some(place) = self.places.get_mut(task) {
            if let Some(work) = place {
                work.begin_update(change);
            }
        }
    }

    /// It is done.
    pub fn finish_update(&mut self, task: &u64, change: Option<GroupPlace>)
        ensures { self.new.places.entries ≡ changed nat_cmp task.now (λ it. update_finished it change) self.old.places.entries }
    {
        if let Some(place) = self.places.get_mut(task) {
            if let Some(work) = place {
                work.finish_update(change);
            }
        }
    }

    /// An instance has answered whether its machine is there.
    pub fn finish_ping(&mut self, task: &u64, at: Option<usize>)
        ensures { self.new.places.entries ≡ changed nat_cmp task.now (with_pinged at) self.old.places.entries }
    {
        if let Some(place) = self.places.get_mut(task) {
            if let Some(work) = place {
                work.pings.finish(at);
            }
        }
    }

    /// Nothing is left of an instance that goes.
    pub fn finish_leaving(&mut self, task: &u64, at: Option<usize>)
        ensures { self.new.places.entries ≡ changed nat_cmp task.now (with_left at) self.old.places.entries }
    {
        if let Some(place) = self.places.get_mut(task) {
            if let Some(work) = place {
                work.obsolete.finish(at);
            }
        }
    }

    /// One of its compile machines is recorded from now on; it is for a key.
    pub fn add_machine(&mut self, task: &u64, key: Option<usize>)
        ensures { self.new.places.entries ≡ changed nat_cmp task.now (λ it. with_machine it key) self.old.places.entries }
    {
        if let Some(place) = self.places.get_mut(task) {
            if let Some(work) = place {
                work.add_machine(key);
            }
        }
    }

    /// One of its compile machines is not there any more; it was for a key.
    pub fn drop_machine(&mut self, task: &u64, key: Option<usize>)
        ensures { self.new.places.entries ≡ changed nat_cmp task.now (λ it. without_machine it key) self.old.places.entries }
    {
        if let Some(place) = self.places.get_mut(task) {
            if let Some(work) = place {
                work.drop_machine(key);
            }
        }
    }

    /// Notes how a call failed, where it did; the least number counts.
    pub fn fail(&mut self, task: &u64, failed: Option<TaskEnd>)
        ensures { self.new.places.entries ≡ changed nat_cmp task.now (λ it. failed_by it failed) self.old.places.entries }
    {
        if let Some(place) = self.places.get_mut(task) {
            if let Some(work) = place {
                work.fail(failed);
            }
        }
    }

    /// A key is compiled: no open task has it left from now on.
    pub fn finish_key(&mut self, key: &Key)
        ensures { self.new.places.entries ≡ each_thing (without_key key.now) self.old.places.entries }
    {
        let mut last = None;
        while let Some(task) = self.next_after(last) {
            self.finish_key_of(&task, key);
            last = Some(task);
        }
    }

    fn finish_key_of(&mut self, task: &u64, key: &Key)
        ensures { self.new.places.entries ≡ changed nat_cmp task.now (without_key key.now) self.old.places.entries }
    {
        if let Some(place) = self.places.get_mut(task) {
            if let Some(work) = place {
                work.finish_key(key);
            }
        }
    }

    /// A compile machine that an earlier task left is not there any more: it is finished in the open task that sweeps it,
    /// at a place of those.
    pub fn finish_machine(&mut self, name: MachineName, at: usize)
        ensures { self.new.places.entries ≡ each_thing (without_swept name at) self.old.places.entries }
    {
        let mut last = None;
        while let Some(task) = self.next_after(last) {
            self.finish_machine_of(&task, name, at);
            last = Some(task);
        }
    }

    fn finish_machine_of(&mut self, task: &u64, name: MachineName, at: usize)
        ensures { self.new.places.entries ≡ changed nat_cmp task.now (without_swept name at) self.old.places.entries }
    {
        if let Some(place) = self.places.get_mut(task) {
            if let Some(work) = place {
                work.finish_machine(name, at);
            }
        }
    }

    /// A disk is not there any more: it is finished in the open task that deletes it, at a place of those.
    pub fn finish_disk(&mut self, disk: u64, at: usize)
        ensures { self.new.places.entries ≡ each_thing (without_disk disk at) self.old.places.entries }
    {
        let mut last = None;
        while let Some(task) = self.next_after(last) {
            self.finish_disk_of(&task, disk, at);
            last = Some(task);
        }
    }

    fn finish_disk_of(&mut self, task: &u64, disk: u64, at: usize)
        ensures { self.new.places.entries ≡ changed nat_cmp task.now (without_disk disk at) self.old.places.entries }
    {
        if let Some(place) = self.places.get_mut(task) {
            if let Some(work) = place {
                work.finish_disk(disk, at);
            }
        }
    }
}
