ghost use Rattle.std.specs.Prelude.{◌≡◌, ℕ, List};
ghost use Rattle.bosh_base.specs.declared.entry.Entry.{Entry};
ghost use Rattle.bosh_base.specs.declared.key.Key.{Key};
ghost use Rattle.bosh_compile.specs.Readiness.{is_among};
ghost use Rattle.bosh_history.specs.Held.{view};
ghost use Rattle.bosh_history.specs.Learn.{known_of};
ghost use Rattle.bosh_history.specs.Slots.{is_compiled};
ghost use Rattle.laws_facts.specs.Lists.{ListFacts};
ghost use Rattle.laws_facts.specs.Kept.{AreInstancesInOrder, AreMachinesInOrder, AreMachinesListed, AreOthersBare, HaveOwnRows};
ghost use Rattle.laws_facts.specs.Kept.{AreBuiltListed, AreCurrent, AreMadeInTheirDeployments, AreTiesKept};
ghost use Rattle.laws_facts.specs.Kept.{AreOfTheirTasks, AreRowsPast, HaveBegun, HaveOwnLocks};
ghost use Rattle.laws_facts.specs.Kept.{AreBegun, AreDoubtsPast, AreDeploymentsApart, AreDeploymentsListed, AreGoalsSound};
ghost use Rattle.laws_facts.specs.Kept.{AreOrphansInOrder, AreOrphansListed};
ghost use Rattle.laws_facts.specs.Kept.{AreNumbersPast, AreOfWork, HaveOneCall, IsKept, OfRecords};

/// An open call is known by its number, no number is to come, no two open calls are of one owner,
/// and the task of each works.
#[tactic(auto, using(crate::proofs::CallLemmas::begun_kept, crate::proofs::CallLemmas::past_kept, crate::proofs::CallLemmas::one_kept, crate::proofs::WorkLemmas::work_kept))]
pub fn open_calls_are_kept()
    ensures begun { IsKept AreBegun }
    ensures past { IsKept AreNumbersPast }
    ensures one_call { IsKept HaveOneCall }
    ensures of_work { IsKept AreOfWork }
{}

/// The deployments that have a goal are listed, each once, and each goal is one that a task may open
/// with.
#[tactic(auto, using(crate::proofs::GoalLemmas::listed_kept, crate::proofs::GoalLemmas::apart_kept, crate::proofs::GoalLemmas::sound_kept))]
pub fn goals_are_kept()
    ensures listed { IsKept (OfRecords AreDeploymentsListed) }
    ensures apart { IsKept (OfRecords AreDeploymentsApart) }
    ensures sound { IsKept (OfRecords AreGoalsSound) }
{}

/// All facts on lists.
pub fn lists_are_kept()
    ensures { IsKept ListFacts }
{}

/// The orphaned disks that are known are listed, in order.
#[tactic(auto, using(crate::proofs::OrphanLemmas::listed_kept, crate::proofs::OrphanLemmas::order_kept))]
pub fn orphans_are_kept()
    ensures listed { IsKept (OfRecords AreOrphansListed) }
    ensures in_order { IsKept (OfRecords AreOrphansInOrder) }
{}

/// The instances of which something is recorded are listed, in order, each with its own row.
#[tactic(auto, using(crate::proofs::InstanceLemmas::own_kept, crate::proofs::InstanceLemmas::bare_kept, crate::proofs::InstanceLemmas::order_kept))]
pub fn instances_are_kept()
    ensures own_row { IsKept (OfRecords HaveOwnRows) }
    ensures bare { IsKept (OfRecords AreOthersBare) }
    ensures in_order { IsKept (OfRecords AreInstancesInOrder) }
{}

/// The compile machines of which something is recorded are listed, in order.
#[tactic(auto, using(crate::proofs::MachineLemmas::listed_kept, crate::proofs::MachineLemmas::order_kept))]
pub fn machines_are_kept()
    ensures listed { IsKept (OfRecords AreMachinesListed) }
    ensures in_order { IsKept (OfRecords AreMachinesInOrder) }
{}

/// No call in doubt is to come, and no row of a goal is wanted of one that is; and a compile machine is of a
/// task that was opened.
pub fn numbers_are_kept()
    ensures doubts { IsKept (OfRecords AreDoubtsPast) }
    ensures rows { IsKept (OfRecords AreRowsPast) }
    ensures of_tasks { IsKept (OfRecords AreOfTheirTasks) }
{}

/// No two open tasks have one lock.
pub fn locks_are_kept()
    ensures { IsKept (OfRecords HaveOwnLocks) }
{}

/// The update of an instance that changes has begun before its first call, but for a ping.
pub fn updates_are_kept()
    ensures { IsKept HaveBegun }
{}

/// The goal of a task that works is the current one of its deployment.
pub fn current_goals_are_kept()
    ensures { IsKept AreCurrent }
{}

/// A link of another deployment is offered by its last deploy that was done, and by its current goal.
pub fn links_are_kept()
    ensures { IsKept (OfRecords AreTiesKept) }
{}

/// A machine is made for an instance, or for a compile machine of a task that was opened, in the deployment of that.
pub fn machines_are_made_in_their_deployments()
    ensures { IsKept AreMadeInTheirDeployments }
{}

/// Whatever entries tell, the compiled keys that are listed are those that have a digest, and the view of each
/// deployment lists them.
#[tactic(auto, using(crate::proofs::BuiltLemmas::listed_of))]
pub fn each_history_lists_its_keys()
    ensures listed { (entries : List Entry) → AreBuiltListed (known_of entries) }
    ensures viewed { (entries : List Entry) (dep : List ℕ) (key : Key) →
        is_among key (view (known_of entries) dep).compiled ≡ is_compiled (known_of entries) key }
{}
