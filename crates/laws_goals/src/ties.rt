//! The ties of a goal.
ghost use Rattle.std.specs.Prelude.{Bool, List, Ok, Some};
ghost use Rattle.bosh_base.specs.declared.goal.Goal.{Goal};
ghost use Rattle.bosh_base.specs.declared.release.Release.{Release};
ghost use Rattle.bosh_base.specs.declared.stemcell.Stemcell.{Stemcell};
ghost use Rattle.bosh_base.specs.declared.view.View.{View};
ghost use Rattle.bosh_cloudcfg.specs.declared.config.Config.{Config};
ghost use Rattle.bosh_goal.specs.Goal.{IsGoal};
ghost use Rattle.laws_goals.specs.Ties.{AreTiesOffered, OffersAreOf, OffersAreOwn};
ghost use Rattle.bosh_manifest.specs.declared.manifest.Contents.{Contents};

/// Each tie of a goal is within the deployment, or to a link that another is known to offer, where what is known of
/// a deployment are its own links.
pub fn ties_are_offered()
    ensures { (manifest : Contents) (config : Config) (releases : List Release) (stemcells : List Stemcell)
        (view : View) (recreate : Bool) (it : Goal) → OffersAreOwn view.known
        → IsGoal manifest (Some config) releases stemcells view recreate (Ok it)
        → AreTiesOffered view.known it.dep it.ties }
{}

/// The links that a goal offers are those of its deployment.
pub fn offers_are_of_the_deployment()
    ensures { (manifest : Contents) (config : Config) (releases : List Release) (stemcells : List Stemcell)
        (view : View) (recreate : Bool) (it : Goal)
        → IsGoal manifest (Some config) releases stemcells view recreate (Ok it) → OffersAreOf it.dep it.offers }
{}
