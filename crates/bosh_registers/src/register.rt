ghost use Rattle.std.specs.Prelude.{◌≡◌, ◌-◌, ◌^◌, ◌≤◌, ◌<◌, [], ◌∷◌, ◌++◌, length, take, None, Some, OnErr, OnOk};
ghost use Rattle.std.specs.Option.{option_copied};
ghost use Rattle.bosh_agent.specs.Change.{IsMade};
ghost use Rattle.bosh_agent.specs.Slots.{at, with_slot};
ghost use Rattle.bosh_registers.specs.Created.{least_created};

use crate::Created;
use bosh_agent::{AgentFault, Numbered};
use bosh_key_index::KeyIndex;
use std::alloc::Global;
use std::marker::Model;

/// Things that are found by their numbers, as `Numbered` has them, and by the calls that created them: the latter takes
/// the logarithm of how many there are. It is seen as `Numbered` is.
#[derive(Drop)]
pub struct Register<T: Created> {
    pub(crate) things: Numbered<T>,
    numbers: KeyIndex,
}

impl<T: Created> Model for Register<T> {
    ghost use Rattle.std.specs.Prelude.{List, Option};
    ghost use Rattle.bosh_registers.specs.Created.{AreIndexed};

    ghost Value = { List (Option T) };

    ghost view = { λ register. register.things };

    ghost invariant = { λ register. AreIndexed T.call register.things register.numbers };
}

impl<T: Created> Register<T> {
    /// Nothing was made yet.
    pub fn new(alloc: Global) -> Self
        ensures { result ≡ [] }
    {
        Register {
            things: Numbered::new(alloc),
            numbers: KeyIndex::new(alloc),
        }
    }

    /// The things by number.
    pub fn things(&self) -> &Numbered<T>
        ensures { result.now ≡ self.now }
    {
        &self.things
    }

    /// A slot for each number, in order.
    pub fn slots(&self) -> &[Option<T>]
        ensures { result.now ≡ self.now }
    {
        self.things.slots()
    }

    /// How many were made.
    pub fn made(&self) -> u64
        ensures made { result ≡ length self.now }
        ensures small { result < 2 ^ 63 }
    {
        self.things.made()
    }

    /// The thing of a number, where it is there.
    pub fn get(&self, number: u64) -> Option<&T>
        ensures { option_copied result ≡ at self.now number }
    {
        self.things.get(number)
    }

    /// The least number of a thing that a call created and that is there.
    pub fn created_by(&self, call: u64) -> Option<u64>
        ensures { result ≡ least_created T.call self.now call }
    {
        self.numbers.least(call)
    }
}

impl<T: Created + Drop> Register<T> {
    /// Adds a thing under the next number. Where there is no memory for it nothing changes.
    pub fn push(&mut self, thing: T) -> Result<(), AgentFault>
        ensures ok { OnOk result (self.new ≡ self.old ++ Some thing ∷ []) }
        ensures memory { OnErr result (self.new ≡ self.old) }
    {
        let call = thing.call();
        self.things.push(Some(thing))?;
        let number = self.things.made();
        if self.numbers.add(call, number).is_err() {
            self.things.pop();
            return Err(AgentFault::Memory);
        }
        Ok(())
    }

    /// Takes the last number away, with its thing.
    pub fn pop(&mut self)
        requires { 1 ≤ length self.old }
        ensures { self.new ≡ take (length self.old - 1) self.old }
    {
        let last = self.things.made();
        self.remove(last);
        self.things.pop();
    }

    /// Takes a thing away. Its number is not used again.
    pub fn remove(&mut self, number: u64)
        requires { IsMade self.old number }
        ensures { self.new ≡ with_slot self.old number None }
    {
        if let Some(thing) = self.things.get(number) {
            self.numbers.remove(thing.call(), number);
        }
        self.things.set(number, None);
    }
}
