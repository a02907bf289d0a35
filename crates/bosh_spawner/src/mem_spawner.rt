// A spawner in memory, for tests.
ghost use Rattle.std.specs.Prelude.{◌≡◌, ◌++◌, [], ◌∷◌, length, Some, IfSome, OnOk, OnErr, IfErr};
ghost use Rattle.bosh_ports.specs.Faults.{NeverFalls};
ghost use Rattle.bosh_spawner.specs.Spawner.{Asks, FailsByCount, FitsOutput, Tells};
ghost use Rattle.bosh_spawner.specs.MemSpawner.{Answers, SpawnerState, after, outcome_at};
ghost use Rattle.bosh_spawner.specs.declared.spawner.SpawnFault.TheVariants.{Memory};

use crate::spawner::MOST_BYTES;
use crate::{Outputs, SpawnFault, Spawner};
use bosh_ports::Bodies;
use std::alloc::Global;
use std::marker::Model;

/// Gives the outputs that it was made of, one a call, and fails where one is missing and past their end.
#[derive(Drop)]
pub struct MemSpawner {
    outputs: Outputs,
    asked: Bodies,
    faults: u64,
}

impl Model for MemSpawner {
    ghost use Rattle.bosh_spawner.specs.MemSpawner.{SpawnerState};

    ghost Value = { SpawnerState };

    ghost view = { λ s. record { outputs = s.outputs; asked = s.asked; faults = s.faults } };
}

impl MemSpawner {
    pub fn new(alloc: Global, outputs: Outputs) -> MemSpawner
        ensures { result ≡ record { outputs = outputs; asked = []; faults = 0 } }
    {
        MemSpawner {
            outputs,
            asked: Bodies::new(alloc),
            faults: 0,
        }
    }

    /// The inputs so far.
    pub fn asked(&self) -> &Bodies
        ensures { result.now ≡ self.now.asked }
    {
        &self.asked
    }

    // A copy of the output of the next call.
    fn output(&self, alloc: Global) -> Result<Vec<u8>, SpawnFault>
        ensures { Answers (outcome_at self.now.outputs (length self.now.asked)) result }
    {
        match self.outputs.output_at(self.asked.len()) {
            Some(output) if output.len() > MOST_BYTES => Err(SpawnFault::TooLong),
            Some(output) => Ok(output.to_vec(alloc)?),
            None => Err(SpawnFault::Failed),
        }
    }

    fn note(&mut self, alloc: Global, input: &[u8]) -> Result<(), SpawnFault>
        ensures ok { OnOk result (self.new ≡ record self.old { asked = self.old.asked ++ input.now ∷ [] }) }
        ensures memory { IfErr result (λ fault. fault ≡ Memory) }
        ensures err { OnErr result (self.new ≡ self.old) }
    {
        let copy = input.to_vec(alloc)?;
        match self.asked.push(copy) {
            Ok(()) => Ok(()),
            Err(_) => Err(SpawnFault::Memory),
        }
    }
}

impl Spawner for MemSpawner {
    ghost use Rattle.bosh_spawner.specs.MemSpawner.{outcomes};

    ghost asked = { λ s. Some s.asked };

    ghost outcomes = { λ s. Some (outcomes s.outputs s.asked) };

    ghost faults = { λ s. s.faults };

    fn faults(&self) -> u64 {
        self.faults
    }

    #[tactic(auto, using(crate::proofs::OutcomeLemmas::outcomes_push))]
    fn ask(&mut self, alloc: Global, input: &[u8]) -> Result<Vec<u8>, SpawnFault>
        ensures answer { Answers (outcome_at self.old.outputs (length self.old.asked)) result }
        ensures state { self.new ≡ after self.old input.now result }
        ensures asked { Asks result self.old.asked input.now (Some self.new.asked) }
        ensures told { Tells result (outcomes self.old.outputs self.old.asked) (Some (outcomes self.new.outputs self.new.asked)) }
        ensures fits { FitsOutput result }
        ensures count { NeverFalls self.old.faults self.new.faults }
        ensures failed { FailsByCount result self.old.faults self.new.faults }
    {
        let output = self.output(alloc);
        if let Err(SpawnFault::Memory) = output {
            return output;
        }
        self.note(alloc, input)?;
        if let Err(SpawnFault::Failed) = output {
            self.faults = self.faults.saturating_add(1);
        }
        output
    }
}
