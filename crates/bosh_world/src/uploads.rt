ghost use Rattle.std.specs.Prelude.{◌≡◌, ◌∷◌, [], IfErr, IfOk, is_some, None, OnOk, true};
ghost use Rattle.bosh_base.specs.History.{Extends};
ghost use Rattle.bosh_asks.specs.Faults.{name_and_version};
ghost use Rattle.bosh_asks.specs.Goals.{config_in};
ghost use Rattle.bosh_base.specs.Version.{IsVersion};
ghost use Rattle.bosh_base.specs.declared.entry.Entry.TheVariants as entries;
ghost use Rattle.bosh_book.specs.Faults.{IsConfigFault, IsUploadFault};
ghost use Rattle.bosh_book.specs.Uploads.{IsAdded, IsOther, IsUpload};
ghost use Rattle.bosh_book.specs.declared.uploads.Added.TheVariants.{New};
ghost use Rattle.bosh_world.specs.Pending.{IsAllowed, Pends};
ghost use Rattle.bosh_world.specs.Refuses.{IsBooks, Refuses};
ghost use Rattle.bosh_world.specs.Steps.{Notes, entries_for};
ghost use Rattle.bosh_world.specs.Silent.{IsSilent, moves_of};

use crate::halting::told;
use crate::{Site, SiteFault};
use bosh_base::{Name, Release};
use bosh_book::Added;
use bosh_ports::Keeper;

impl<K: Keeper, L: Keeper> Site<K, L> {
    /// Records a release. One of its name and version that is there already has to be the same, and it has to go with
    /// those that are there. One that is not sound by itself, or whose version is none, goes with none.
    #[tactic(auto, using(crate::proofs::PendLemmas::pends_still))]
    pub fn upload(&mut self, release: Release) -> Result<Added, SiteFault>
        ensures notes { IfOk result (λ added.
            Notes K.bodies K.faults self.old (entries_for added (entries.Release release)) None self.new) }
        ensures told { IfOk result (IsUpload self.old.book.records.releases.items release) }
        ensures calls { self.new.calls ≡ self.old.calls }
        ensures refused { IfErr result (λ fault. Refuses K.bodies K.faults self.old [] fault self.new) }
        ensures fault { IfErr result (IsBooks (IsUploadFault self.old.book
            (name_and_version release.name release.version) (IsOther self.old.book.records.releases.items release))) }
        ensures pending { Pends self.old (IsAllowed (IsUpload self.old.book.records.releases.items release New)
            (entries.Release release)) self.new }
        ensures grows { Extends (moves_of self.old) (moves_of self.new) }
        ensures silent { IsSilent self.old self.new }
    {
        self.check_running()?;
        let added = self.book.upload(release);
        told(
            &mut self.history,
            self.alloc,
            self.book.entries(),
            self.cloud.effects(),
            self.book.sprung(),
            added,
        )
    }

    /// Records a stemcell, where it is not there yet. What is no version is taken for another one than those that are
    /// there.
    #[tactic(auto, using(crate::proofs::PendLemmas::pends_still))]
    pub fn add_stemcell(&mut self, os: &Name, version: &[u8]) -> Result<Added, SiteFault>
        ensures notes { IfOk result (λ added. Notes K.bodies K.faults self.old
            (entries_for added (entries.Stemcell (record { os = os.now; version = version.now }))) None self.new) }
        ensures told { IfOk result (IsAdded self.old.book.records.stemcells.items os.now version.now) }
        ensures calls { self.new.calls ≡ self.old.calls }
        ensures refused { IfErr result (λ fault. Refuses K.bodies K.faults self.old [] fault self.new) }
        ensures fault { IfErr result (IsBooks (IsUploadFault self.old.book
            (name_and_version os.now version.now) (¬ IsVersion version.now))) }
        ensures pending { Pends self.old (IsAllowed (IsAdded self.old.book.records.stemcells.items os.now version.now New)
            (entries.Stemcell (record { os = os.now; version = version.now }))) self.new }
        ensures grows { Extends (moves_of self.old) (moves_of self.new) }
        ensures silent { IsSilent self.old self.new }
    {
        self.check_running()?;
        let added = self.book.add_stemcell(os, version);
        told(
            &mut self.history,
            self.alloc,
            self.book.entries(),
            self.cloud.effects(),
            self.book.sprung(),
            added,
        )
    }

    /// Puts a cloud config in the place of the one that is there. A file that spells none is refused as if there were
    /// none.
    #[tactic(auto, using(crate::proofs::PendLemmas::pends_still))]
    pub fn set_config(&mut self, file: &[u8]) -> Result<(), SiteFault>
        ensures notes { OnOk result (
            Notes K.bodies K.faults self.old (entries.Config file.now ∷ []) None self.new) }
        ensures spells { OnOk result (is_some (config_in file.now) ≡ true) }
        ensures calls { self.new.calls ≡ self.old.calls }
        ensures refused { IfErr result (λ fault. Refuses K.bodies K.faults self.old [] fault self.new) }
        ensures fault { IfErr result (IsBooks (IsConfigFault self.old.book file.now)) }
        ensures pending { Pends self.old (IsAllowed (is_some (config_in file.now) ≡ true) (entries.Config file.now)) self.new }
        ensures grows { Extends (moves_of self.old) (moves_of self.new) }
        ensures silent { IsSilent self.old self.new }
    {
        self.check_running()?;
        let set = self.book.set_config(file);
        told(
            &mut self.history,
            self.alloc,
            self.book.entries(),
            self.cloud.effects(),
            self.book.sprung(),
            set,
        )
    }
}
