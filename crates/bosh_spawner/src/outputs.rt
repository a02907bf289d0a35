// What children are to answer, in order.
ghost use Rattle.std.specs.Prelude.{◌≡◌, ◌≤◌, ◌++◌, [], ◌∷◌, length, slice_get, Some, None, MatchOption, OnOk, IfErr};
ghost use Rattle.bosh_spawner.specs.MemSpawner.{outcome_at};
ghost use Rattle.bosh_spawner.specs.Outputs.{bytes_of};

use std::alloc::Global;
use std::marker::Model;

/// A list of outputs, some of which are missing.
#[derive(Drop)]
pub struct Outputs {
    items: Vec<Option<Vec<u8>>>,
}

impl Model for Outputs {
    ghost use Rattle.std.specs.Prelude.{List, ℕ, Option};
    ghost use Rattle.bosh_spawner.specs.Outputs.{outputs};

    ghost Value = { List (Option (List ℕ)) };

    ghost view = { λ list. outputs list.items.items };
}

impl Outputs {
    pub fn new(alloc: Global) -> Outputs
        ensures { result ≡ [] }
    {
        Outputs {
            items: Vec::new(alloc),
        }
    }

    pub fn len(&self) -> usize
        ensures { result ≡ length self.now }
    {
        self.items.len()
    }

    /// The output at a place, counted from 0, which may be missing, or none past the end.
    pub fn get(&self, k: usize) -> Option<&Option<Vec<u8>>>
        ensures { MatchOption result (length self.now ≤ k) (λ item. slice_get self.now k ≡ Some (bytes_of item.now)) }
    {
        self.items.get(k)
    }

    /// The output of the call at a place, counted from 0: none where it is missing, and past the end.
    #[tactic(auto, using(crate::proofs::OutcomeLemmas::outcome_there, crate::proofs::OutcomeLemmas::outcome_past))]
    pub(crate) fn output_at(&self, k: usize) -> Option<&Vec<u8>>
        ensures { MatchOption result (outcome_at self.now k ≡ None) (λ output. outcome_at self.now k ≡ Some output.now.items) }
    {
        match self.get(k) {
            Some(Some(output)) => Some(output),
            Some(None) => None,
            None => None,
        }
    }

    /// Puts an output at the end, or gives it back for want of memory.
    pub fn push(&mut self, item: Option<Vec<u8>>) -> Result<(), Option<Vec<u8>>>
        ensures ok { OnOk result (self.new ≡ self.old ++ bytes_of item ∷ []) }
        ensures given_back { IfErr result (λ back. (back ≡ item) × (self.new ≡ self.old)) }
    {
        match self.items.push(item) {
            Ok(()) => Ok(()),
            Err(refused) => Err(refused.value),
        }
    }
}
