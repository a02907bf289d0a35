ghost use Rattle.std.specs.Prelude.{◌≡◌};
ghost use Rattle.std.specs.Ordering.{nat_cmp};
ghost use Rattle.bosh_records.specs.Changes.{one_more, with_end, with_one_call};
ghost use Rattle.bosh_records.specs.Table.{changed};

use crate::Table;
use bosh_base::{TaskEnd, TaskRow};
use bosh_drops::put;

impl Table<u64, TaskRow> {
    /// One more call of a task began, where its calls are counted.
    pub fn count_call(&mut self, task: &u64)
        ensures { self.new.places.entries ≡ changed nat_cmp task.now with_one_call self.old.places.entries }
    {
        if let Some(place) = self.places.get_mut(task) {
            if let Some(row) = place {
                row.calls = counted(row.calls);
            }
        }
    }

    /// Notes how a task ended.
    pub fn set_end(&mut self, task: &u64, end: TaskEnd)
        ensures { self.new.places.entries ≡ changed nat_cmp task.now (with_end end) self.old.places.entries }
    {
        if let Some(place) = self.places.get_mut(task) {
            if let Some(row) = place {
                put(&mut row.end, Some(end));
            }
        }
    }
}

fn counted(calls: Option<u64>) -> Option<u64>
    ensures { result ≡ one_more calls }
{
    Some(calls?.saturating_add(1))
}
