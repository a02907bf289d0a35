ghost use Rattle.std.specs.Prelude.{◌≡◌, ℕ, Option, false, None, Some, IsTrue, is_some};
ghost use Rattle.bosh_base.specs.declared.answer.Answer.{Answer};
ghost use Rattle.bosh_base.specs.declared.answer.Answer.TheVariants.{Done};
ghost use Rattle.bosh_base.specs.declared.call.Call.{Call};
ghost use Rattle.bosh_base.specs.declared.call.Call.TheVariants.{MigrateDisk};
ghost use Rattle.bosh_base.specs.declared.goal.GoalRow.{GoalRow};
ghost use Rattle.bosh_base.specs.declared.row.Row.{Row};
ghost use Rattle.bosh_rows.specs.After.{after};
ghost use Rattle.bosh_rows.specs.CallOf.{has_its_machine, next_call};
ghost use Rattle.bosh_rows.specs.NextStep.{next_step};
ghost use Rattle.bosh_rows.specs.Told.{CanMigrate, active_number, disk_told, first_number, is_migration, machine_told, or_before, running_told, says_absent, spec_told};

/// What an answer leaves of the machine of a row, of its spec and of whether it runs: what the answer says of it;
/// nothing where it says that the machine is absent; and else what was recorded before.
#[tactic(auto, using(crate::proofs::ToldLemmas::machine_after, crate::proofs::ToldLemmas::spec_after, crate::proofs::ToldLemmas::running_after))]
pub fn an_answer_says()
    ensures machine { (n : ℕ) (call : Call) (answer : Answer) (row : Row) →
        (after n call answer row).vm
        ≡ or_before (says_absent row call answer) None (machine_told n call answer) row.vm }
    ensures spec { (n : ℕ) (call : Call) (answer : Answer) (row : Row) →
        (after n call answer row).spec ≡ or_before (says_absent row call answer) None (spec_told call answer) row.spec }
    ensures running { (n : ℕ) (call : Call) (answer : Answer) (row : Row) →
        (after n call answer row).running
        ≡ or_before (says_absent row call answer) false (running_told call answer) row.running }
{}

/// The next step of a row that has the machine that its steps may name is a call.
#[tactic(auto, using(crate::proofs::CallLemmas::next_is_next_call))]
pub fn a_next_step_is_a_call()
    ensures { (want : Option GoalRow) (row : Row) → IsTrue (has_its_machine row) →
        is_some (next_call want row) ≡ is_some (next_step want row) }
{}

/// The active disk of a row after an answer is the one before it, and where there was none the one that the answer says
/// is there; but after a migration from the only active disk it is the one that the contents were moved to.
#[tactic(auto, using(crate::proofs::ActiveLemmas::active_after, crate::proofs::ActiveLemmas::active_migrated))]
pub fn an_answer_keeps_the_active_disk()
    ensures kept { (n : ℕ) (call : Call) (answer : Answer) (row : Row) → is_migration call ≡ false →
        active_number (after n call answer row).disks
        ≡ first_number (active_number row.disks) (disk_told call answer row.doubt) }
    ensures migrated { (n vm from to : ℕ) (row : Row) → CanMigrate from to row.disks →
        active_number (after n (MigrateDisk vm from to) Done row).disks ≡ Some to }
{}
