// That the keys of the tables stand in order, each once. A map tells it with its length.
ghost use Rattle.std.specs.Ordering.{nat_cmp};
ghost use Rattle.bosh_base.specs.Inst.{inst_cmp};
ghost use Rattle.bosh_records.specs.Changes.{since_cmp};
ghost use Rattle.bosh_records.specs.Keys.{key_cmp};
ghost use Rattle.bosh_records.specs.Ordered.{AreInOrder, AreOrdered};
ghost use Rattle.bosh_records.specs.Readers.{machine_cmp};
ghost use Rattle.bosh_records.specs.Recorded.{recorded};

use crate::Records;

impl Records {
    /// Tells that the keys of each table stand in order, each once. Nothing is done.
    pub fn tell_order(&self)
        ensures { AreOrdered (recorded self.now) }
    {
        self.tell_order_of_owners();
        self.tell_order_of_tasks();
    }

    fn tell_order_of_owners(&self)
        ensures instances { AreInOrder inst_cmp self.now.instances.by_inst.entries }
        ensures machines { AreInOrder machine_cmp self.now.machines.places.entries }
        ensures orphans { AreInOrder nat_cmp self.now.orphans.places.entries }
    {
        self.instances.iter();
        self.machines.iter();
        self.orphans.iter();
    }

    fn tell_order_of_tasks(&self)
        ensures deployments { AreInOrder since_cmp self.now.deployments.places.entries }
        ensures keys { AreInOrder key_cmp self.now.keys.by_key.entries }
        ensures tasks { AreInOrder nat_cmp self.now.tasks.places.entries }
        ensures works { AreInOrder nat_cmp self.now.works.places.entries }
        ensures calls { AreInOrder nat_cmp self.now.calls.places.entries }
    {
        self.deployments.iter();
        self.keys.tell_order();
        self.tasks.iter();
        self.works.iter();
        self.calls.iter();
    }
}
