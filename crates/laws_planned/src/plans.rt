//! Tasks that open, and those that are refused.
ghost use Rattle.std.specs.Prelude.{◌<◌, ◌≡◌, ◌⊎◌, Err, Ok};
ghost use Rattle.bosh_asks.specs.Asked.{dep_of};
ghost use Rattle.bosh_asks.specs.Cause.{IsCause};
ghost use Rattle.bosh_asks.specs.Over.{GoalOver, IsNamed};
ghost use Rattle.bosh_asks.specs.Refused.{MayRefuse};
ghost use Rattle.bosh_asks.specs.declared.ask.Ask.{Ask};
ghost use Rattle.bosh_asks.specs.declared.fault.BookFault.TheVariants.{Memory};
ghost use Rattle.bosh_asks.specs.declared.fault.BookFault.{BookFault};
ghost use Rattle.bosh_base.specs.declared.entry.TaskOpen.{TaskOpen};
ghost use Rattle.bosh_due.specs.Openings.{opening_with};
ghost use Rattle.bosh_history.specs.Moments.{Moment};
ghost use Rattle.bosh_records.specs.declared.records.Records.{Records};
ghost use Rattle.laws_facts.specs.KnownFacts.{KnownFacts};
ghost use Rattle.laws_planned.specs.Planned.{PlansAsk};
ghost use Rattle.laws_stands.specs.Agrees.{Agrees};
ghost use Rattle.laws_stands.specs.Stands.{Stands};
ghost use Rattle.laws_stands.specs.Told.{Told};
ghost use Rattle.laws_views.specs.Planned.{IsPlanned};
ghost use Rattle.laws_views.specs.Viewed.{CanBeViewed};

/// Where the records stand for what is told at a moment, a task that is planned over them is the one that is due by what is
/// known then, with the goal that is planned for what is asked, as long as tasks have numbers.
pub fn what_opens_is_planned()
    ensures { (m : Moment) (told : Told) (records : Records) (ask : Ask) (o : TaskOpen) → Stands told records
        → Agrees m told → KnownFacts m → CanBeViewed m.known → m.known.tasks < 18446744073709551615
        → IsPlanned records ask o → PlansAsk m.known ask (Ok o.goal) × (o ≡ opening_with m.known ask o.goal) }
{}

/// .. and what is asked is refused by what is known for the cause that the records give, the first in order; but for want of
/// memory, which may come at any time.
pub fn what_is_refused_is_planned()
    ensures { (m : Moment) (told : Told) (records : Records) (ask : Ask) (fault : BookFault) → Stands told records
        → Agrees m told → KnownFacts m → CanBeViewed m.known → MayRefuse ask fault
        → IsCause records (IsNamed records ask) (dep_of ask) (GoalOver records ask) fault
        → (fault ≡ Memory) ⊎ PlansAsk m.known ask (Err fault) }
{}
