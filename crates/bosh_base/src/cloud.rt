//! Examples of the cloud as a function of what was done to it, which `specs/Cloud.antt` and
//! `specs/CallStep.antt` define.

ghost use Rattle.std.specs.Prelude.{◌≡◌, [], ◌∷◌, List, None, true, false, codes, map, length};
ghost use Rattle.bosh_base.specs.Cloud.{machines, is_vm_there, is_running, is_drained, is_disk_there, holder_of, mounted_on, contents_of, disks};
ghost use Rattle.bosh_base.specs.CallStep.{answer_of};
ghost use Rattle.bosh_base.specs.CloudExamples.{small, ten, one_made, one_started, one_stopped, one_deleted, one_attached, one_mounted, attached_and_deleted, one_migrated, one_lost, one_silent};
ghost use Rattle.bosh_base.specs.declared.key.KeyWork.{KeyWork};
ghost use Rattle.bosh_base.specs.declared.digest.Digest.{Digest};

use crate::{Answer, Call};

/// Machines that are made, started, stopped, deleted and lost.
pub fn machine_examples()
    ensures none_yet { is_vm_there [] 1 ≡ false }
    ensures made { map (λ machine. machine.agent) (machines one_made) ≡ 1 ∷ [] }
    ensures not_running { is_running one_made 1 ≡ false }
    ensures running { is_running one_started 1 ≡ true }
    ensures stopped { is_running one_stopped 1 ≡ false }
    ensures drained { is_drained one_stopped 1 ≡ true }
    ensures deleted { machines one_deleted ≡ [] }
    ensures lost { machines one_lost ≡ [] }
    ensures silent { map (λ machine. machine.silent) (machines one_silent) ≡ true ∷ [] }
{}

/// Disks that are attached, mounted, migrated, and left by their machine.
pub fn disk_examples()
    ensures attached { holder_of one_attached 1 ≡ Some 1 }
    ensures not_mounted { mounted_on one_attached 1 ≡ [] }
    ensures mounted { mounted_on one_mounted 1 ≡ 1 ∷ [] }
    ensures left { holder_of attached_and_deleted 1 ≡ None }
    ensures stays { is_disk_there attached_and_deleted 1 ≡ true }
    ensures migrated { contents_of one_migrated 2 ≡ codes "hello" }
    ensures written_after { contents_of one_migrated 1 ≡ codes "later" }
{}

/// What calls answer.
pub fn answer_examples()
    ensures next_machine { (built : KeyWork → List Digest → Digest) → answer_of built one_deleted (Call.CreateVm small []) ≡ Answer.Cid 2 }
    ensures found { (built : KeyWork → List Digest → Digest) → answer_of built one_made (Call.FindVm 1) ≡ Answer.Found (Some 1) }
    ensures not_found { (built : KeyWork → List Digest → Digest) → answer_of built one_deleted (Call.FindVm 1) ≡ Answer.Found None }
    ensures attached_stays { (built : KeyWork → List Digest → Digest) → answer_of built one_attached (Call.DeleteDisk 1) ≡ Answer.Gone }
    ensures left_goes { (built : KeyWork → List Digest → Digest) → answer_of built attached_and_deleted (Call.DeleteDisk 1) ≡ Answer.Done }
    ensures mounted_stays { (built : KeyWork → List Digest → Digest) → answer_of built one_mounted (Call.DetachDisk 1 1) ≡ Answer.Gone }
    ensures silent_is_there { (built : KeyWork → List Digest → Digest) → answer_of built one_silent (Call.HasVm 1) ≡ Answer.Yes }
    ensures silent_is_gone { (built : KeyWork → List Digest → Digest) → answer_of built one_silent (Call.Ping 1) ≡ Answer.Gone }
    ensures silent_has_disks { (built : KeyWork → List Digest → Digest) → answer_of built one_silent (Call.CreateDisk ten 1) ≡ Answer.Cid 1 }
{}
