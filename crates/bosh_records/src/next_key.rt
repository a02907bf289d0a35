ghost use Rattle.std.specs.Prelude.{◌≡◌, is_some};
ghost use Rattle.std.specs.Option.{option_copied};
ghost use Rattle.bosh_records.specs.NextKey.{first_key, goal_for, has_needs, may_compile, next_key};

use crate::Records;
use bosh_base::{Goal, KeyWork};
use bosh_work::Work;

impl Records {
    /// The current goal of the deployment of a task.
    pub fn goal_for(&self, task: u64) -> Option<&Goal>
        ensures { option_copied result ≡ goal_for self.now task }
    {
        self.goal_of(self.dep_of(task)?)
    }

    /// The place of the first key of a task that it may make a machine for: it is not compiled, no machine of the task is
    /// for it, and all that it needs is compiled. It costs the logarithm of how many keys there are once none is left.
    pub fn next_key(&self, work: &Work) -> Option<usize>
        ensures { result ≡ next_key self.now work.now }
    {
        work.keys.queue.first()?;
        let goal = self.goal_for(work.task)?;
        self.first_key(work, goal.keys.as_slice())
    }

    fn first_key(&self, work: &Work, keys: &[KeyWork]) -> Option<usize>
        ensures { result ≡ first_key self.now work.now 0 keys.now }
    {
        for (place, key) in keys.iter().enumerate() {
            if self.may_compile(work, place, key) {
                return Some(place);
            }
        }
        None
    }

    fn may_compile(&self, work: &Work, place: usize, key: &KeyWork) -> bool
        ensures { result ≡ may_compile self.now work.now place key.now }
    {
        work.keys.queue.free.is_marked(place) && self.has_needs(key)
    }

    fn has_needs(&self, key: &KeyWork) -> bool
        ensures { result ≡ has_needs self.now key.now }
    {
        key.deps.iter().all(|dep| self.digest_of(dep).is_some())
    }
}
