ghost use Rattle.std.specs.Prelude.{◌≡◌, [], slice_get};
ghost use Rattle.std.specs.Option.{option_copied};
ghost use Rattle.bosh_work.specs.Rolling.{at_change, begun, finished, given, taken};

use crate::GroupPlace;
use bosh_base::Seq;
use bosh_progress::Rolling;
use std::alloc::Global;
use std::marker::Model;

/// The changed instances of one group.
#[derive(Drop)]
pub struct GroupWork {
    /// Groups of a later stage wait for those of an earlier one.
    pub stage: u32,
    /// The places of its instances among all that change.
    pub places: Seq<usize>,
    pub roll: Rolling,
}

/// The groups of a task with changes, in order. They are seen as a list.
#[derive(Drop)]
pub struct Groups {
    items: Vec<GroupWork>,
}

impl Model for Groups {
    ghost use Rattle.std.specs.Prelude.{List};
    ghost use Rattle.bosh_work.specs.declared.groups.GroupWork.{GroupWork};

    ghost Value = { List GroupWork };

    ghost view = { λ groups. groups.items.items };
}

impl Groups {
    /// No groups.
    pub fn none(alloc: Global) -> Groups
        ensures { result ≡ [] }
    {
        Groups {
            items: Vec::new(alloc),
        }
    }

    /// These groups.
    pub fn of(items: Vec<GroupWork>) -> Groups
        ensures { result ≡ items.items }
    {
        Groups { items }
    }

    pub fn get(&self, place: usize) -> Option<&GroupWork>
        ensures { option_copied result ≡ slice_get self.now place }
    {
        self.items.get(place)
    }

    pub fn as_slice(&self) -> &[GroupWork]
        ensures { result.now ≡ self.now }
    {
        self.items.as_slice()
    }

    /// Somebody works on a changed instance, where one is told.
    pub fn take(&mut self, change: Option<GroupPlace>)
        ensures { self.new ≡ at_change taken self.old change }
    {
        if let Some(at) = change {
            if let Some(group) = self.items.get_mut(at.group) {
                group.roll.take(at.place);
            }
        }
    }

    /// Nobody does any more.
    pub fn give(&mut self, change: Option<GroupPlace>)
        ensures { self.new ≡ at_change given self.old change }
    {
        if let Some(at) = change {
            if let Some(group) = self.items.get_mut(at.group) {
                group.roll.give(at.place);
            }
        }
    }

    /// The update of a changed instance begins.
    pub fn begin(&mut self, change: Option<GroupPlace>)
        ensures { self.new ≡ at_change begun self.old change }
    {
        if let Some(at) = change {
            if let Some(group) = self.items.get_mut(at.group) {
                group.roll.begin(at.place);
            }
        }
    }

    /// It is done.
    pub fn finish(&mut self, change: Option<GroupPlace>)
        ensures { self.new ≡ at_change finished self.old change }
    {
        if let Some(at) = change {
            if let Some(group) = self.items.get_mut(at.group) {
                group.roll.finish(at.place);
            }
        }
    }
}
