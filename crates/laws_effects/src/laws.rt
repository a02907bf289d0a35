ghost use Rattle.std.specs.Prelude.{◌≡◌, ℕ, ◌+◌, ◌≤◌, [], ◌∷◌, ◌++◌, List, Some, true, false};
ghost use Rattle.bosh_base.specs.CallStep.{has_agent};
ghost use Rattle.bosh_base.specs.Cloud.{contents_of, creates_disk, creates_vm, disk_creation, disks_created, holder_of, is_disk_there, is_vm_there, vm_creation, vms_created};
ghost use Rattle.bosh_base.specs.declared.digest.Digest.{Digest};
ghost use Rattle.bosh_base.specs.declared.entry.Effect as effect;
ghost use Rattle.bosh_base.specs.declared.entry.Entry.{Entry};
ghost use Rattle.bosh_base.specs.declared.entry.Entry.TheVariants.{Effect};
ghost use Rattle.bosh_base.specs.declared.key.KeyWork.{KeyWork};
ghost use Rattle.laws_effects.specs.DiskStates.{disk_after, disk_state};
ghost use Rattle.laws_effects.specs.Following.{MayFollow};
ghost use Rattle.laws_effects.specs.Holders.{AreHeldByTheirOwn, JoinsTheSame};
ghost use Rattle.laws_effects.specs.Orderly.{AreOrderly, is_new_call};
ghost use Rattle.laws_effects.specs.VmStates.{vm_after, vm_state};

/// What may be done next, by a call of a new number, keeps what was done in its order.
#[tactic(auto, using(crate::proofs::FollowLemmas::orderly_follows))]
pub fn what_may_follow_is_orderly()
    ensures { (built : KeyWork → List Digest → Digest) (before : List Entry) (entry : Entry) →
        AreOrderly before → MayFollow built before entry → is_new_call before entry →
        AreOrderly (before ++ entry ∷ []) }
{}

/// The next machine or disk that is created has the next number, and what was created stays as it was created.
#[tactic(auto, using(crate::proofs::CreationLemmas::vm_creation_stays, crate::proofs::CreationLemmas::vm_creation_next, crate::proofs::CreationLemmas::disk_creation_stays, crate::proofs::CreationLemmas::disk_creation_next))]
pub fn what_is_created_stays()
    ensures vm { (before : List Entry) (entry : Entry) (v : ℕ) → v ≤ vms_created before →
        vm_creation (before ++ entry ∷ []) v ≡ vm_creation before v }
    ensures next_vm { (before : List Entry) (e : effect.Effect) → creates_vm e.call ≡ true →
        vm_creation (before ++ Effect e ∷ []) (vms_created before + 1) ≡ Some e }
    ensures disk { (before : List Entry) (entry : Entry) (d : ℕ) → d ≤ disks_created before →
        disk_creation (before ++ entry ∷ []) d ≡ disk_creation before d }
    ensures next_disk { (before : List Entry) (e : effect.Effect) → creates_disk e.call ≡ true →
        disk_creation (before ++ Effect e ∷ []) (disks_created before + 1) ≡ Some e }
{}

/// One more entry in its order changes the machine that it names, and no other.
#[tactic(auto, using(crate::proofs::VmLemmas::entry_changes_vm))]
pub fn an_entry_changes_a_machine()
    ensures { (before : List Entry) (entry : Entry) (v : ℕ) → AreOrderly before →
        vm_state (before ++ entry ∷ []) v ≡ vm_after (vms_created before) v entry (vm_state before v) }
{}

/// What may be done next changes the disk that it names, or those that a machine has that goes.
#[tactic(auto, using(crate::proofs::DiskLemmas::entry_changes_disk))]
pub fn an_entry_changes_a_disk()
    ensures { (built : KeyWork → List Digest → Digest) (before : List Entry) (entry : Entry) (d : ℕ) →
        AreOrderly before → MayFollow built before entry →
        disk_state (before ++ entry ∷ []) d
        ≡ disk_after (disks_created before) (contents_of before) d entry (disk_state before d) }
{}

/// A machine or a disk that was created and is not there never is again, and a machine that does not answer never
/// answers again.
#[tactic(auto, using(crate::proofs::VmLemmas::gone_vm, crate::proofs::VmLemmas::silent_vm, crate::proofs::DiskLemmas::gone_disk))]
pub fn what_is_gone_is_gone()
    ensures vm { (before : List Entry) (entry : Entry) (v : ℕ) → v ≤ vms_created before →
        is_vm_there before v ≡ false → is_vm_there (before ++ entry ∷ []) v ≡ false }
    ensures agent { (before : List Entry) (entry : Entry) (v : ℕ) → v ≤ vms_created before →
        has_agent before v ≡ false → has_agent (before ++ entry ∷ []) v ≡ false }
    ensures disk { (before : List Entry) (entry : Entry) (d : ℕ) → d ≤ disks_created before →
        is_disk_there before d ≡ false → is_disk_there (before ++ entry ∷ []) d ≡ false }
{}

/// Each disk stays on a machine of its own owner, where a disk is attached to such a one alone.
#[tactic(auto, using(crate::proofs::HolderLemmas::held_by_own))]
pub fn a_disk_is_held_by_its_own()
    ensures { (built : KeyWork → List Digest → Digest) (before : List Entry) (entry : Entry) →
        AreOrderly before → MayFollow built before entry → AreHeldByTheirOwn before → JoinsTheSame before entry →
        AreHeldByTheirOwn (before ++ entry ∷ []) }
{}
