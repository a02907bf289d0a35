//! What is chosen for a task, and the end that comes to it.
ghost use Rattle.std.specs.Prelude.{Some, false, true, ◌≡◌, ℕ};
ghost use Rattle.bosh_base.specs.declared.moves.Move.TheVariants as moves;
ghost use Rattle.bosh_base.specs.declared.task.TaskEnd.{TaskEnd};
ghost use Rattle.bosh_book.specs.Ends.{closing, coming_end};
ghost use Rattle.bosh_claim.specs.Choice.{choice_of};
ghost use Rattle.bosh_history.specs.Fit.{IsFit};
ghost use Rattle.bosh_history.specs.Moments.{Opening};
ghost use Rattle.bosh_history.specs.Notes.{Outside};
ghost use Rattle.bosh_history.specs.Permitted.{IsPermitted};
ghost use Rattle.laws_claims.specs.Progress.{IsLawful};
ghost use Rattle.laws_facts.specs.Owners.{works};
ghost use Rattle.laws_sites.specs.Good.{IsGood, moment_of};
ghost use Rattle.laws_stands.specs.Agrees.{claimed_of};

use bosh_ports::Keeper;
use bosh_world::Site;

/// What the records of a good site that runs choose for a task that works may be noted, or it may end, or an open call is
/// waited for.
pub fn what_a_good_site_chooses_is_lawful<K: Keeper, L: Keeper>(site: &Site<K, L>)
    ensures { (outside : Outside) (o : Opening) (t worker : ℕ) → IsFit outside o
        → IsGood outside K.bodies L.bodies o site.now → site.now.history.is_halted ≡ false
        → works (moment_of o site.now) t ≡ true
        → IsLawful outside (moment_of o site.now) t (claimed_of (choice_of site.now.book.records t worker)) }
{}

/// .. and the end that comes to the task by them may be noted.
pub fn a_task_may_end_as_it_comes_to_its_end<K: Keeper, L: Keeper>(site: &Site<K, L>)
    ensures { (outside : Outside) (o : Opening) (t : ℕ) (end : TaskEnd) → IsFit outside o
        → IsGood outside K.bodies L.bodies o site.now → site.now.history.is_halted ≡ false
        → works (moment_of o site.now) t ≡ true
        → coming_end site.now.book.records t ≡ Some end
        → IsPermitted outside (moment_of o site.now) (moves.Note (closing t end)) }
{}
