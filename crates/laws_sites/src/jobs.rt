//! Writes of jobs, and losses.
ghost use Rattle.std.specs.Prelude.{Bool, List, Some, ◌≡◌, ℕ};
ghost use Rattle.bosh_base.specs.declared.entry.Entry.TheVariants as entries;
ghost use Rattle.bosh_base.specs.declared.entry.Loss.{Loss};
ghost use Rattle.bosh_base.specs.declared.inst.Inst.{Inst};
ghost use Rattle.bosh_base.specs.declared.moves.Move.TheVariants as moves;
ghost use Rattle.bosh_history.specs.Fit.{IsFit};
ghost use Rattle.bosh_history.specs.Moments.{Opening};
ghost use Rattle.bosh_history.specs.Notes.{Outside};
ghost use Rattle.bosh_holdings.specs.Finding.{lost_vm, written_disk};
ghost use Rattle.bosh_world.specs.Jobs.{Changes, IsLoss, IsMissing, IsNotRunning, IsWrite, RefusesJob};
ghost use Rattle.bosh_world.specs.declared.fault.SiteFault.{SiteFault};
ghost use Rattle.laws_sites.specs.Good.{IsGood};

use bosh_ports::Keeper;
use bosh_world::Site;

/// A good site on which a job has written to the disk that is found for it is good, and so is one that refuses that.
pub fn a_good_site_writes_what_a_job_may<K: Keeper, L: Keeper>(was: &Site<K, L>, now: &Site<K, L>)
    ensures written { (outside : Outside) (o : Opening) (inst : Inst) (text : List ℕ) (disk : ℕ) → IsFit outside o
        → IsGood outside K.bodies L.bodies o was.now
        → written_disk was.now.book.records was.now.cloud.effects inst ≡ Some disk
        → Changes L.bodies L.faults was.now (entries.Write (record { disk = disk; text = text }))
        (moves.Wrote (record { inst = inst; text = text })) now.now → IsGood outside K.bodies L.bodies o now.now }
    ensures refused { (outside : Outside) (o : Opening) (inst : Inst) (text : List ℕ) (fault : SiteFault)
        → IsFit outside o → IsGood outside K.bodies L.bodies o was.now
        → RefusesJob L.bodies L.faults was.now (IsWrite was.now inst text) (IsNotRunning was.now inst) fault now.now
        → IsGood outside K.bodies L.bodies o now.now }
{}

/// A good site on which the machine that is found for an instance was lost, whole or its agent, is good, and so is one that
/// refuses that.
pub fn a_good_site_loses_what_may_be_lost<K: Keeper, L: Keeper>(was: &Site<K, L>, now: &Site<K, L>)
    ensures lost { (outside : Outside) (o : Opening) (inst : Inst) (loss : Loss) → IsFit outside o
        → IsGood outside K.bodies L.bodies o was.now
        → lost_vm was.now.book.records was.now.cloud.effects inst ≡ Some loss.vm
        → Changes L.bodies L.faults was.now (entries.Lost loss) (moves.Lost loss) now.now
        → IsGood outside K.bodies L.bodies o now.now }
    ensures refused { (outside : Outside) (o : Opening) (inst : Inst) (whole : Bool) (fault : SiteFault)
        → IsFit outside o → IsGood outside K.bodies L.bodies o was.now
        → RefusesJob L.bodies L.faults was.now (IsLoss was.now inst whole) (IsMissing was.now inst) fault now.now
        → IsGood outside K.bodies L.bodies o now.now }
{}
