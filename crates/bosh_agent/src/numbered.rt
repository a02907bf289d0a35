ghost use Rattle.std.specs.Prelude.{◌≡◌, ◌-◌, ◌^◌, ◌≤◌, ◌<◌, [], ◌∷◌, ◌++◌, length, take, None, OnErr, OnOk};
ghost use Rattle.std.specs.Option.{option_copied};
ghost use Rattle.bosh_agent.specs.Slots.{at, with_slot};

use crate::AgentFault;
use bosh_base::Disk;
use std::alloc::Global;
use std::marker::Model;
use std::mem;

/// Things that are numbered from 1 on as they are made, and found by their numbers. It is seen as a list with a slot
/// for each number, which is empty where the thing is gone. A slot is never used again.
#[derive(Drop)]
pub struct Numbered<T> {
    slots: Vec<Option<T>>,
}

/// The disks of a cloud.
pub type Disks = Numbered<Disk>;

impl<T> Model for Numbered<T> {
    ghost use Rattle.std.specs.Prelude.{List, Option};

    ghost Value = { List (Option T) };

    ghost view = { λ numbered. numbered.slots.items };
}

impl<T> Numbered<T> {
    pub fn new(alloc: Global) -> Self
        ensures { result ≡ [] }
    {
        Numbered {
            slots: Vec::new(alloc),
        }
    }

    /// A slot for each number, in order.
    pub fn slots(&self) -> &[Option<T>]
        ensures { result.now ≡ self.now }
    {
        self.slots.as_slice()
    }

    /// How many were made.
    pub fn made(&self) -> u64
        ensures made { result ≡ length self.now }
        ensures small { result < 2 ^ 63 }
    {
        self.slots.len() as u64
    }

    /// The thing of a number, where it is there.
    pub fn get(&self, number: u64) -> Option<&T>
        ensures { option_copied result ≡ at self.now number }
    {
        if number == 0 {
            return None;
        }
        match self.slots.get((number - 1) as usize) {
            Some(slot) => slot.as_ref(),
            None => None,
        }
    }
}

impl<T: Drop> Numbered<T> {
    /// Adds a slot, for the next number. Where there is no memory for it nothing changes.
    pub fn push(&mut self, slot: Option<T>) -> Result<(), AgentFault>
        ensures ok { OnOk result (self.new ≡ self.old ++ slot ∷ []) }
        ensures memory { OnErr result (self.new ≡ self.old) }
    {
        self.slots.push(slot)?;
        Ok(())
    }

    /// Takes the last slot away.
    pub fn pop(&mut self)
        requires { 1 ≤ length self.old }
        ensures { self.new ≡ take (length self.old - 1) self.old }
    {
        self.slots.truncate(self.slots.len() - 1);
    }

    /// Puts a thing in the slot of a number, or empties the slot.
    pub fn set(&mut self, number: u64, thing: Option<T>)
        requires from_one { 1 ≤ number }
        requires made { number ≤ length self.old }
        ensures { self.new ≡ with_slot self.old number thing }
    {
        self.slots[(number - 1) as usize] = thing;
    }

    /// Takes the thing of a number out of its slot.
    pub fn take(&mut self, number: u64) -> Option<T>
        requires from_one { 1 ≤ number }
        requires made { number ≤ length self.old }
        ensures slot { self.new ≡ with_slot self.old number None }
        ensures taken { result ≡ at self.old number }
    {
        mem::replace(&mut self.slots[(number - 1) as usize], None)
    }
}
