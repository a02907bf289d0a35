//! Deployments become what their manifests say.
ghost use Rattle.std.specs.Prelude.{◌≡◌, ◌⊎◌, IfErr, IfOk, List, None, Ok, OnOk, Option, Some, false, ℕ};
ghost use Rattle.std.specs.Option.{option_copied};
ghost use Rattle.bosh_asks.specs.Cause.{IsCause};
ghost use Rattle.bosh_asks.specs.Changed.{AreChanged, AreObsolete, changed_of, obsolete_of};
ghost use Rattle.bosh_asks.specs.Goals.{AreSound, Gives, recorded_config};
ghost use Rattle.bosh_asks.specs.Known.{lacks_room, lock_holder, rows_at};
ghost use Rattle.bosh_asks.specs.Opened.{Deploys};
ghost use Rattle.bosh_asks.specs.Over.{DeploysOver, GivesOver, Is};
ghost use Rattle.bosh_asks.specs.Recorded.{first_consumer};
ghost use Rattle.bosh_asks.specs.Refused.{RefusesDeploy, RefusesGoal};
ghost use Rattle.bosh_asks.specs.Faults.{unsound};
ghost use Rattle.bosh_asks.specs.declared.fault.BookFault.TheVariants.{Memory};

use crate::changed::changed_of;
use crate::config::recorded_config;
use crate::consumers::check_consumers;
use crate::differing::differs;
use crate::fault::answered;
use crate::limits::check_limit;
use crate::locks::check_free;
use crate::obsolete::obsolete_of;
use crate::plan::Plan;
use crate::{BookFault, Deploy};
use bosh_base::{Goal, Inst, Release, Seq};
use bosh_cloudcfg::Config;
use bosh_drops::{after, beside, passed};
use bosh_goal::goal;
use bosh_records::Records;
use bosh_sound::are_sound;
use bosh_views::view;
use std::alloc::Global;

fn wanted_from(
    alloc: Global,
    records: &Records,
    deploy: &Deploy,
    releases: &[Release],
    config: Option<&Config>,
) -> Result<Goal, BookFault>
    requires { AreSound releases.now }
    ensures ok { (file : Option (List ℕ)) → option_copied config.entry ≡ recorded_config file
        → IfOk result (λ it. Gives deploy.now (Ok it)) }
    ensures err { (file : Option (List ℕ)) → option_copied config.entry ≡ recorded_config file
        → IfErr result (RefusesDeploy deploy.now) }
    ensures over { releases.now ≡ records.now.releases.items
        → option_copied config.entry ≡ recorded_config records.now.config
        → IfOk result (λ it. GivesOver records.now deploy.now (Ok it)) }
    ensures cause { releases.now ≡ records.now.releases.items
        → option_copied config.entry ≡ recorded_config records.now.config
        → lock_holder records.now (Some deploy.now.manifest.name) ≡ None
        → IfErr result (IsCause records.now (Unit {0}) (Some deploy.now.manifest.name)
        (GivesOver records.now deploy.now)) }
{
    let view = view(records, &deploy.manifest.contents().name)?;
    let goal = goal(
        alloc,
        &deploy.manifest,
        config,
        releases,
        records.stemcells(),
        &view,
        deploy.recreate,
    );
    after(view, answered(goal))
}

fn wanted_of(
    alloc: Global,
    records: &Records,
    deploy: &Deploy,
    releases: &[Release],
) -> Result<Goal, BookFault>
    requires { AreSound releases.now }
    ensures ok { IfOk result (λ it. Gives deploy.now (Ok it)) }
    ensures err { IfErr result (RefusesDeploy deploy.now) }
    ensures over { releases.now ≡ records.now.releases.items
        → IfOk result (λ it. GivesOver records.now deploy.now (Ok it)) }
    ensures cause { releases.now ≡ records.now.releases.items
        → lock_holder records.now (Some deploy.now.manifest.name) ≡ None
        → IfErr result (IsCause records.now (Unit {0}) (Some deploy.now.manifest.name)
        (GivesOver records.now deploy.now)) }
{
    let config = recorded_config(alloc, records.config())?;
    let goal = wanted_from(alloc, records, deploy, releases, config.as_ref());
    after(config, goal)
}

fn unsound(alloc: Global, releases: &[Release]) -> BookFault
    ensures { (result ≡ unsound releases.now) ⊎ (result ≡ Memory) }
{
    match releases.last() {
        Some(release) => differs(alloc, &release.name, release.version.as_slice()),
        None => BookFault::Memory,
    }
}

// The goal of the manifest. Releases that are no good are none that are taken up; the last one is named.
fn wanted(alloc: Global, records: &Records, deploy: &Deploy) -> Result<Goal, BookFault>
    ensures over { IfOk result (λ it. GivesOver records.now deploy.now (Ok it)) }
    ensures ok { IfOk result (λ it. Gives deploy.now (Ok it)) }
    ensures err { IfErr result (RefusesDeploy deploy.now) }
    ensures cause { lock_holder records.now (Some deploy.now.manifest.name) ≡ None
        → IfErr result (IsCause records.now (Unit {0}) (Some deploy.now.manifest.name)
        (GivesOver records.now deploy.now)) }
{
    let releases = records.releases();
    if !are_sound(alloc, releases)? {
        return Err(unsound(alloc, releases));
    }
    wanted_of(alloc, records, deploy, releases)
}

// That the goal may become that of its deployment.
fn check(alloc: Global, records: &Records, goal: &Goal) -> Result<(), BookFault>
    ensures kept { OnOk result (first_consumer goal.now records.now.deployments.places.entries ≡ None) }
    ensures room { OnOk result (lacks_room records.now goal.now.dep ≡ false) }
    ensures err { IfErr result (RefusesGoal goal.now) }
    ensures cause { lock_holder records.now (Some goal.now.dep) ≡ None
        → IfErr result (IsCause records.now (Unit {0}) (Some goal.now.dep) (Is goal.now)) }
{
    check_consumers(alloc, records.deployments(), goal)?;
    check_limit(records, &goal.dep)
}

fn checked_goal(alloc: Global, records: &Records, deploy: &Deploy) -> Result<Goal, BookFault>
    ensures free { OnOk result (lock_holder records.now (Some deploy.now.manifest.name) ≡ None) }
    ensures over { IfOk result (λ it. GivesOver records.now deploy.now (Ok it)) }
    ensures kept { IfOk result (λ it. first_consumer it records.now.deployments.places.entries ≡ None) }
    ensures room { OnOk result (lacks_room records.now deploy.now.manifest.name ≡ false) }
    ensures ok { IfOk result (λ it. Gives deploy.now (Ok it)) }
    ensures err { IfErr result (RefusesDeploy deploy.now) }
    ensures cause { IfErr result
        (IsCause records.now (Unit {0}) (Some deploy.now.manifest.name) (GivesOver records.now deploy.now)) }
{
    check_free(records.tasks(), Some(&deploy.manifest.contents().name))?;
    let goal = wanted(alloc, records, deploy)?;
    let checked = check(alloc, records, &goal);
    passed(goal, checked)
}

// Which instances change and which go.
fn instances_of(
    alloc: Global,
    records: &Records,
    goal: &Goal,
    all: bool,
) -> Result<(Seq<Inst>, Seq<Inst>), BookFault>
    ensures over { IfOk result (λ both. (both.0 ≡ changed_of all goal.now.rows (rows_at records.now goal.now.rows))
        × (both.1 ≡ obsolete_of goal.now records.now.instances.by_inst.entries)) }
    ensures ok { IfOk result (λ both. AreChanged all goal.now.rows both.0 × AreObsolete goal.now both.1) }
    ensures err { IfErr result (λ fault. fault ≡ Memory) }
{
    let changed = changed_of(alloc, records, goal.rows.as_slice(), all)?;
    let obsolete = obsolete_of(alloc, records.instances(), goal)?;
    Ok((changed, obsolete))
}

/// A deployment becomes what a manifest says.
#[tactic(auto, using(crate::proofs::GoalLemmas::given_dep))]
pub(crate) fn deploy_plan(
    alloc: Global,
    records: &Records,
    deploy: &Deploy,
) -> Result<Plan, BookFault>
    ensures free { OnOk result (lock_holder records.now (Some deploy.now.manifest.name) ≡ None) }
    ensures over { IfOk result (DeploysOver records.now deploy.now) }
    ensures ok { IfOk result (Deploys deploy.now) }
    ensures err { IfErr result (RefusesDeploy deploy.now) }
    ensures cause { IfErr result
        (IsCause records.now (Unit {0}) (Some deploy.now.manifest.name) (GivesOver records.now deploy.now)) }
{
    let goal = checked_goal(alloc, records, deploy)?;
    let instances = instances_of(alloc, records, &goal, deploy.fix);
    let (goal, (changed, obsolete)) = beside(goal, instances)?;
    Ok(Plan {
        goal: Some(goal),
        changed,
        obsolete,
        disks: Seq::new(alloc),
    })
}
