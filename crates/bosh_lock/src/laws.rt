//! What the rule of a lock says of it, whatever its state between two steps; and what may cross threads.
ghost use Rattle.bosh_lock.specs.Laws.{HasOneHolder, HasOneList, IsWhole};

use crate::chronicle::Chronicle;
use crate::lock::SiteLock;
use crate::pass::Pass;
use crate::turn::Turn;

/// The shares of all passes and turns are never more than 2^32; at most one has the value; and what any two have seen
/// are beginnings of one list.
pub fn what_all_have<S: Chronicle>()
    ensures shares { IsWhole S.items }
    ensures holder { HasOneHolder S.items }
    ensures list { HasOneList S.items }
{}

const fn is_sent<T: Send>() {}

const fn is_shared<T: Send + Sync>() {}

/// Where a value may go to another thread, so may its passes and turns, and its lock may be used by many.
pub const fn what_crosses_threads<S: Chronicle + Send>() {
    is_shared::<SiteLock<S>>();
    is_sent::<Pass<S>>();
    is_sent::<Turn<S>>();
}
