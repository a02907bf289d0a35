//! All tables.
ghost use Rattle.std.specs.Prelude.{◌≡◌};
ghost use Rattle.bosh_base.specs.declared.inst.Inst.{Inst};
ghost use Rattle.bosh_history.specs.Known.{want_in};
ghost use Rattle.bosh_records.specs.Readers.{goal_of, want_of};
ghost use Rattle.bosh_records.specs.Recorded.{recorded};
ghost use Rattle.bosh_records.specs.declared.records.Records.{Records};
ghost use Rattle.laws_stands.specs.Linked.{IsLinked};

/// The want of an instance is the one that the current goal of its deployment has.
pub fn wants_are_found()
    ensures { (records : Records) (i : Inst) → IsLinked (recorded records) → want_of records i
        ≡ want_in (goal_of records i.dep) i }
{}
