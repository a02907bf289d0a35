ghost use Rattle.std.specs.Prelude.{◌≡◌, ℕ, List, map, All, false};
ghost use Rattle.bosh_base.specs.declared.entry.Entry.{Entry};
ghost use Rattle.bosh_cloud.specs.CloudView.{CloudView};
ghost use Rattle.bosh_cloud.specs.Loading.{IsKept, effects_in};
ghost use Rattle.bosh_cloud.specs.Reads.{Reads};
ghost use Rattle.bosh_cloud.specs.Runs.{after_run, AllKeep};
ghost use Rattle.bosh_entry.specs.Body.{spelling};
ghost use Rattle.bosh_entry.specs.Reading.{IsBytes};
ghost use Rattle.bosh_inventory.specs.Happens.{AllFollow};

use bosh_ports::Keeper;

/// What was done in turn is found again in its bodies.
pub fn what_is_kept_is_loaded()
    ensures { (effects : List Entry) → AllFollow effects → effects_in (map spelling effects) ≡ Ok effects }
{}

/// The bodies of which a cloud is loaded are those that it keeps of what was done, and each of that followed what was
/// done before it.
pub fn what_is_loaded_is_kept()
    ensures bodies { (bodies : List (List ℕ)) (effects : List Entry) →
        All IsBytes bodies → effects_in bodies ≡ Ok effects → bodies ≡ map spelling effects }
    ensures follows { (bodies : List (List ℕ)) (effects : List Entry) →
        All IsBytes bodies → effects_in bodies ≡ Ok effects → AllFollow effects }
{}

/// What a load reads of the store of a cloud is what was done to the cloud, however many calls came between.
pub fn what_was_done_is_loaded<L: Keeper>()
    ensures { (first : CloudView L) (run : List (CloudView L)) (store : L) (effects : List Entry) →
        IsKept L.bodies first → AllKeep L.bodies first run → (after_run first run).is_stale ≡ false →
        Reads L.bodies L.faults (after_run first run).store (Ok effects) store →
        effects ≡ (after_run first run).effects }
{}
