//! What a task that opens reads of the records.
ghost use Rattle.bosh_history.specs.Moments.{Moment};
ghost use Rattle.bosh_records.specs.declared.records.Records.{Records};
ghost use Rattle.laws_facts.specs.KnownFacts.{KnownFacts};
ghost use Rattle.laws_stands.specs.Agrees.{Agrees};
ghost use Rattle.laws_stands.specs.Stands.{Stands};
ghost use Rattle.laws_stands.specs.Told.{Told};
ghost use Rattle.laws_views.specs.Read.{AreReadAsKnown};

/// Where the records stand for what is told at a moment, what is read of them is what is known: who has a lock, which
/// deployments, instances and disks are there, which instances a goal changes and deletes, and whether it withdraws a link
/// that another deployment uses.
pub fn what_is_known_is_read()
    ensures { (m : Moment) (told : Told) (records : Records) → Stands told records → Agrees m told → KnownFacts m
        → AreReadAsKnown m.known records }
{}
