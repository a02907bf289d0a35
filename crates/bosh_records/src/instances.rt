ghost use Rattle.std.specs.Prelude.{◌≡◌, [], None, OnErr, OnOk, Some};
ghost use Rattle.std.specs.BTreeMap.{IsOrdered, IsUnchanged, Updates, insert_entry};
ghost use Rattle.std.specs.Map.Iter.{ShowsInOrder, deref_pair};
ghost use Rattle.std.specs.Option.{option_copied};
ghost use Rattle.bosh_base.specs.Inst.{inst_cmp};
ghost use Rattle.bosh_base.specs.declared.inst.Inst.{Inst};
ghost use Rattle.bosh_records.specs.Instances.{IsChanged, known_in, part_in, ping_of, row_in, unknown, with_change};
ghost use Rattle.bosh_records.specs.Instances.{with_leaving, with_ping};
ghost use Rattle.bosh_records.specs.Recorded.{known_instances};
ghost use Rattle.bosh_records.specs.Table.{with_room};
ghost use Rattle.bosh_records.specs.declared.instances.Instance.{Instance};

use crate::RecordsFault;
use crate::table::insert;
use bosh_base::{Copyable, Inst, Owner, Row};
use bosh_drops::{let_go, put};
use bosh_work::{GroupPlace, Part};
use std::alloc::Global;
use std::collections::BTreeMap;
use std::collections::btree_map::Iter;

/// What is known of an instance.
#[derive(Drop)]
pub struct Instance {
    /// What is recorded of it. It is none before its first call, and once it is gone.
    pub row: Option<Row>,
    /// Its place among the rows of the current goal of its deployment.
    pub want: Option<usize>,
    pub part: Part,
    /// The number of its open call.
    pub call: Option<u64>,
}

impl Instance {
    fn unknown() -> Instance
        ensures { result ≡ unknown }
    {
        Instance {
            row: None,
            want: None,
            part: Part::none(),
            call: None,
        }
    }
}

/// What is known of instances, in their order. Those of which nothing is recorded, wanted or asked may stand here too.
#[derive(Drop)]
pub struct Instances {
    by_inst: BTreeMap<Inst, Instance>,
}

impl Instances {
    pub fn new(alloc: Global) -> Instances
        ensures { result.by_inst.entries ≡ [] }
    {
        Instances {
            by_inst: BTreeMap::new(alloc),
        }
    }

    pub fn get(&self, inst: &Inst) -> Option<&Instance>
        ensures { option_copied result ≡ known_in self.now inst.now }
    {
        self.by_inst.get(inst)
    }

    pub fn row(&self, inst: &Inst) -> Option<&Row>
        ensures { option_copied result ≡ row_in self.now inst.now }
    {
        self.get(inst)?.row.as_ref()
    }

    pub fn iter(&self) -> Iter<'_, Inst, Instance>
        ensures rest { result ≡ self.now.by_inst.entries }
        ensures runs { ShowsInOrder (deref_pair {K = Inst} {X = Instance}) }
        ensures ordered { IsOrdered inst_cmp self.now.by_inst }
    {
        self.by_inst.iter()
    }

    /// Makes room for an instance, of which nothing is known yet.
    pub fn ensure(&mut self, alloc: Global, inst: &Inst) -> Result<(), RecordsFault>
        ensures ok { OnOk result
            (self.new.by_inst.entries ≡ with_room inst_cmp inst.now unknown self.old.by_inst.entries) }
        ensures alike { known_instances self.new.by_inst.entries ≡ known_instances self.old.by_inst.entries }
        ensures err { OnErr result (IsUnchanged self.old.by_inst self.new.by_inst) }
        ensures row { row_in self.new inst.now ≡ row_in self.old inst.now }
    {
        self.make_place(alloc, inst)
    }

    fn make_place(&mut self, alloc: Global, inst: &Inst) -> Result<(), RecordsFault>
        ensures ok { OnOk result
            (self.new.by_inst.entries ≡ with_room inst_cmp inst.now unknown self.old.by_inst.entries) }
        ensures err { OnErr result (IsUnchanged self.old.by_inst self.new.by_inst) }
        ensures row { row_in self.new inst.now ≡ row_in self.old inst.now }
    {
        if self.by_inst.contains_key(inst) {
            return Ok(());
        }
        let name = inst.copy(alloc)?;
        self.add(name)
    }

    fn add(&mut self, name: Inst) -> Result<(), RecordsFault>
        ensures updates { OnOk result (Updates inst_cmp self.old.by_inst self.new.by_inst name (Some unknown)) }
        ensures ok { OnOk result
            (self.new.by_inst.entries ≡ insert_entry inst_cmp self.old.by_inst.entries name unknown) }
        ensures err { OnErr result (IsUnchanged self.old.by_inst self.new.by_inst) }
    {
        insert(&mut self.by_inst, name, Instance::unknown())
    }

    /// Puts down what is recorded of an instance.
    pub fn record(&mut self, row: Row)
        ensures { IsChanged self.old self.new row.inst (λ it. record it { row = Some row }) }
    {
        match self.by_inst.get_mut(&row.inst) {
            Some(instance) => put(&mut instance.row, Some(row)),
            None => let_go(row),
        }
    }

    /// Nothing is recorded of an instance any more.
    pub fn forget(&mut self, inst: &Inst)
        ensures { IsChanged self.old self.new inst.now (λ it. record it { row = None }) }
    {
        if let Some(instance) = self.by_inst.get_mut(inst) {
            put(&mut instance.row, None);
        }
    }

    /// Notes how a goal wants an instance.
    pub fn set_want(&mut self, inst: &Inst, want: Option<usize>)
        ensures { IsChanged self.old self.new inst.now (λ it. record it { want = want }) }
    {
        if let Some(instance) = self.by_inst.get_mut(inst) {
            instance.want = want;
        }
    }

    /// Notes the open call of an instance, or that it has none.
    pub fn set_call(&mut self, inst: &Inst, call: Option<u64>)
        ensures { IsChanged self.old self.new inst.now (λ it. record it { call = call }) }
    {
        if let Some(instance) = self.by_inst.get_mut(inst) {
            instance.call = call;
        }
    }

    pub fn set_ping(&mut self, inst: &Inst, place: Option<usize>)
        ensures { IsChanged self.old self.new inst.now (with_ping place) }
    {
        if let Some(instance) = self.by_inst.get_mut(inst) {
            instance.part.ping = place;
        }
    }

    pub fn set_leaving(&mut self, inst: &Inst, place: Option<usize>)
        ensures { IsChanged self.old self.new inst.now (with_leaving place) }
    {
        if let Some(instance) = self.by_inst.get_mut(inst) {
            instance.part.leaving = place;
        }
    }

    pub fn set_change(&mut self, inst: &Inst, place: Option<GroupPlace>)
        ensures { IsChanged self.old self.new inst.now (with_change place) }
    {
        if let Some(instance) = self.by_inst.get_mut(inst) {
            instance.part.change = place;
        }
    }

    /// The place of an owner among those that are asked first.
    pub fn ping_of(&self, owner: &Owner) -> Option<usize>
        ensures { result ≡ ping_of self.now owner.now }
    {
        match owner {
            Owner::Instance(inst) => self.part(inst).ping,
            _ => None,
        }
    }

    /// The part of an instance in the open task of its deployment.
    pub fn part(&self, inst: &Inst) -> Part
        ensures { result ≡ part_in self.now inst.now }
    {
        match self.get(inst) {
            Some(instance) => instance.part,
            None => Part::none(),
        }
    }
}
