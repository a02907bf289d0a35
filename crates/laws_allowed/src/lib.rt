//! What may be noted at a moment of a history is allowed after the entries that the records stand for, kind by kind.
#![tactic(auto)]

ghost use Rattle.std.specs.Prelude.{◌≡◌, ◌<◌, ℕ, List, true};
ghost use Rattle.bosh_base.specs.declared.entry.Begin.{Begin};
ghost use Rattle.bosh_base.specs.declared.entry.End.{End};
ghost use Rattle.bosh_base.specs.declared.entry.Entry.TheVariants as entries;
ghost use Rattle.bosh_base.specs.declared.entry.TaskError.{TaskError};
ghost use Rattle.bosh_base.specs.declared.entry.Update.{Update};
ghost use Rattle.bosh_base.specs.declared.release.Release.{Release};
ghost use Rattle.bosh_base.specs.declared.stemcell.Stemcell.{Stemcell};
ghost use Rattle.bosh_claim.specs.Allowed.{allowed};
ghost use Rattle.bosh_history.specs.Moments.{Moment};
ghost use Rattle.bosh_history.specs.Notes.{MayNote, Outside};
ghost use Rattle.bosh_history.specs.Recovered.{may_follow};
ghost use Rattle.bosh_records.specs.declared.records.Records.{Records};
ghost use Rattle.laws_facts.specs.KnownFacts.{KnownFacts};
ghost use Rattle.laws_stands.specs.Agrees.{Agrees};
ghost use Rattle.laws_stands.specs.Stands.{Stands};
ghost use Rattle.laws_stands.specs.Told.{Told};

/// A release that may be noted is allowed.
pub fn a_release_that_may_be_noted_is_allowed()
    ensures { (outside : Outside) (m : Moment) (told : Told) (records : Records) (release : Release)
        → Stands told records → Agrees m told → MayNote outside m (entries.Release release)
        → allowed records (entries.Release release) ≡ true }
{}

/// A stemcell that may be noted is allowed.
pub fn a_stemcell_that_may_be_noted_is_allowed()
    ensures { (outside : Outside) (m : Moment) (told : Told) (records : Records) (stemcell : Stemcell)
        → Stands told records → Agrees m told → MayNote outside m (entries.Stemcell stemcell)
        → allowed records (entries.Stemcell stemcell) ≡ true }
{}

/// A config that may be noted is allowed.
pub fn a_config_that_may_be_noted_is_allowed()
    ensures { (outside : Outside) (m : Moment) (records : Records) (file : List ℕ)
        → MayNote outside m (entries.Config file)
        → allowed records (entries.Config file) ≡ true }
{}

/// The beginning of a call that may be noted is allowed, as long as calls have numbers.
pub fn a_call_that_may_begin_is_allowed()
    ensures { (outside : Outside) (m : Moment) (told : Told) (records : Records) (begin : Begin)
        → Stands told records → Agrees m told → KnownFacts m → m.known.last_call < 18446744073709551615
        → MayNote outside m (entries.Begin begin) → may_follow m (entries.Begin begin) ≡ true
        → allowed records (entries.Begin begin) ≡ true }
{}

/// The end of a call that may be noted is allowed.
pub fn an_end_that_may_be_noted_is_allowed()
    ensures { (outside : Outside) (m : Moment) (told : Told) (records : Records) (end : End)
        → Stands told records → Agrees m told → KnownFacts m → MayNote outside m (entries.End end)
        → allowed records (entries.End end) ≡ true }
{}

/// The failure of a task that may be noted is allowed: by a call, once no task is to be interrupted, or by a stop.
pub fn a_failure_that_may_be_noted_is_allowed()
    ensures { (outside : Outside) (m : Moment) (told : Told) (records : Records) (error : TaskError)
        → Stands told records → Agrees m told → KnownFacts m → MayNote outside m (entries.TaskError error)
        → may_follow m (entries.TaskError error) ≡ true
        → allowed records (entries.TaskError error) ≡ true }
{}

/// The beginning of an update that may be noted is allowed, as long as calls have numbers.
pub fn an_update_that_may_begin_is_allowed()
    ensures { (outside : Outside) (m : Moment) (told : Told) (records : Records) (update : Update)
        → Stands told records → Agrees m told → KnownFacts m → m.known.last_call < 18446744073709551615
        → MayNote outside m (entries.UpdBegin update) → may_follow m (entries.UpdBegin update) ≡ true
        → allowed records (entries.UpdBegin update) ≡ true }
{}

/// .. and so is its end, also where a call of the task failed.
pub fn an_update_that_may_end_is_allowed()
    ensures { (outside : Outside) (m : Moment) (told : Told) (records : Records) (update : Update)
        → Stands told records → Agrees m told → KnownFacts m → m.known.last_call < 18446744073709551615
        → MayNote outside m (entries.UpdDone update) → may_follow m (entries.UpdDone update) ≡ true
        → allowed records (entries.UpdDone update) ≡ true }
{}

/// That an instance leaves is allowed where it may be noted, also where a call of the task failed.
pub fn an_instance_that_may_leave_is_allowed_to()
    ensures { (outside : Outside) (m : Moment) (told : Told) (records : Records) (update : Update)
        → Stands told records → Agrees m told → KnownFacts m → m.known.last_call < 18446744073709551615
        → MayNote outside m (entries.Gone update) → may_follow m (entries.Gone update) ≡ true
        → allowed records (entries.Gone update) ≡ true }
{}

/// That a task is done is allowed where it may be noted.
pub fn a_task_that_may_be_done_is_allowed_to()
    ensures { (outside : Outside) (m : Moment) (told : Told) (records : Records) (task : ℕ)
        → Stands told records → Agrees m told → KnownFacts m → m.known.last_call < 18446744073709551615
        → MayNote outside m (entries.TaskDone task) → may_follow m (entries.TaskDone task) ≡ true
        → allowed records (entries.TaskDone task) ≡ true }
{}
