ghost use Rattle.std.specs.Prelude.{◌≡◌};
ghost use Rattle.bosh_records.specs.Changes.{since_cmp, with_goal, with_shared};
ghost use Rattle.bosh_records.specs.Table.{changed};

use crate::{Since, Table};
use bosh_base::{DepRow, Goal, Offer, Seq};
use bosh_drops::put;

impl Table<Since, DepRow> {
    /// Puts a goal in the place of the current one of a deployment.
    pub fn set_goal(&mut self, since: &Since, goal: Goal)
        ensures { self.new.places.entries ≡ changed since_cmp since.now (with_goal goal) self.old.places.entries }
    {
        if let Some(place) = self.places.get_mut(since) {
            if let Some(row) = place {
                put(&mut row.goal, goal);
            }
        }
    }

    /// Notes what a deployment offers to others.
    pub fn set_shared(&mut self, since: &Since, offers: Seq<Offer>)
        ensures { self.new.places.entries ≡ changed since_cmp since.now (with_shared offers) self.old.places.entries }
    {
        if let Some(place) = self.places.get_mut(since) {
            if let Some(row) = place {
                put(&mut row.shared, offers);
            }
        }
    }
}
