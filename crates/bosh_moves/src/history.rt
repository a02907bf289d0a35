ghost use Rattle.std.specs.Prelude.{◌≡◌, ◌≤◌, ◌<◌, ◌+◌, ◌^◌, ◌++◌, [], ◌∷◌, false, true, drop, is_some, length, min, None, OnErr, OnOk, Some};
ghost use Rattle.std.specs.Option.{option_copied};
ghost use Rattle.bosh_base.specs.History.{chosen};
ghost use Rattle.bosh_base.specs.declared.moves.Cause.TheVariants as causes;
ghost use Rattle.bosh_base.specs.declared.moves.Move.TheVariants as moves;
ghost use Rattle.bosh_moves.specs.Found.{kept_at, stop_of};
ghost use Rattle.bosh_moves.specs.Story.{Follows, IsOf, IsTold, Tells, TellsNotes, halts, kept_count};

use crate::found::found;
use bosh_base::{Cause, CopyFault, Copyable, Entry, Move, Stop};
use std::alloc::Global;
use std::marker::Model;

/// The moves of a site, in order: a list that only grows. What its book has noted, and a stop or a halt that came, is told
/// by moves at once where there is memory, and else before the next move.
#[derive(Drop)]
pub struct History {
    moves: Vec<Move>,
    /// How many entries of the book there were before the first move, or are told by moves.
    entries: usize,
    /// How many effects of the cloud, as the entries.
    effects: usize,
    /// A restart that is to be told first, and whether it found an entry more.
    restart: Option<bool>,
    /// A halt that is to be told last.
    halt: Option<Cause>,
    is_halted: bool,
}

impl Model for History {
    ghost use Rattle.std.specs.Prelude.{◌-◌};
    ghost use Rattle.std.specs.Vec.{vec_capacity, vec_len};
    ghost use Rattle.bosh_moves.specs.Story.{HistoryView};

    ghost Value = { HistoryView };

    ghost view = { λ history. record {
      moves = history.moves.items;
      free = vec_capacity history.moves - vec_len history.moves;
      entries = history.entries;
      effects = history.effects;
      restart = history.restart;
      halt = history.halt;
      is_halted = history.is_halted;
    } };
}

impl History {
    /// Nothing happened yet to so many entries and effects.
    pub fn new(alloc: Global, entries: usize, effects: usize) -> History
        ensures { result ≡ record {
          moves = [];
          free = result.free;
          entries = entries;
          effects = effects;
          restart = None;
          halt = None;
          is_halted = false;
        } }
    {
        History {
            moves: Vec::new(alloc),
            entries,
            effects,
            restart: None,
            halt: None,
            is_halted: false,
        }
    }

    pub fn moves(&self) -> &[Move]
        ensures { result.now ≡ self.now.moves }
    {
        self.moves.as_slice()
    }

    pub fn is_halted(&self) -> bool
        ensures { result ≡ self.now.is_halted }
    {
        self.is_halted
    }

    /// How many entries its moves tell, with those before.
    pub fn entries(&self) -> usize
        ensures { result ≡ self.now.entries }
    {
        self.entries
    }

    /// The site halts, where it has not halted yet.
    pub fn halt(&mut self, cause: Cause)
        ensures running { self.old.is_halted ≡ false
            → self.new ≡ record self.old { halt = Some cause; is_halted = true } }
        ensures halted { self.old.is_halted ≡ true → self.new ≡ self.old }
    {
        if !self.is_halted {
            self.is_halted = true;
            self.halt = Some(cause);
        }
    }

    /// The site has started anew, and goes on or halts again. For want of memory it halts again in any case.
    pub fn restart(
        &mut self,
        alloc: Global,
        entries: &[Entry],
        effects: &[Entry],
        kept: bool,
        halt: Option<Cause>,
    ) -> Result<(), CopyFault>
        requires halted { self.old.is_halted ≡ true }
        requires told { IsTold self.old }
        requires there { kept ≡ true → self.old.entries < length entries.now }
        ensures ok { OnOk result (self.new ≡ record self.old {
          moves = self.old.moves ++ moves.Stop (stop_of (kept_at kept entries.now self.old.entries)
              (drop self.old.effects effects.now)) ∷ [];
          free = self.new.free;
          entries = min self.old.entries (length entries.now) + kept_count (Some kept);
          effects = length effects.now;
          halt = halt;
          is_halted = is_some halt;
        }) }
        ensures refused { OnErr result (self.new ≡ record self.old {
          free = self.new.free;
          entries = min self.old.entries (length entries.now);
          restart = Some kept;
          halt = Some (chosen halt causes.Stop);
        }) }
    {
        self.owe(kept, entries.len());
        match self.tell_stop(alloc, entries, effects, kept) {
            Ok(()) => {
                self.stand(halt);
                Ok(())
            }
            Err(fault) => {
                self.stand(Some(halt.unwrap_or(Cause::Stop)));
                Err(fault)
            }
        }
    }

    // A restart is to be told, which found so many entries.
    fn owe(&mut self, kept: bool, entries: usize)
        ensures { self.new ≡ record self.old { entries = min self.old.entries entries; restart = Some kept } }
    {
        self.entries = self.entries.min(entries);
        self.restart = Some(kept);
    }

    // The site halts, or goes on.
    fn stand(&mut self, halt: Option<Cause>)
        ensures { self.new ≡ record self.old { halt = halt; is_halted = is_some halt } }
    {
        self.is_halted = halt.is_some();
        self.halt = halt;
    }

    /// Tells what is to be told, and keeps a place for one move more, and for a halt.
    pub fn tell(
        &mut self,
        alloc: Global,
        entries: &[Entry],
        effects: &[Entry],
    ) -> Result<(), CopyFault>
        requires { IsOf self.old entries.now }
        ensures tells { Tells self.old entries.now effects.now self.new }
        ensures told { OnOk result (IsTold self.new × (self.new.entries ≡ length entries.now) × (2 ≤ self.new.free)) }
    {
        self.tell_restart(alloc, entries, effects)?;
        self.tell_notes(alloc, entries)?;
        self.tell_halt()?;
        self.reserve()
    }

    fn tell_restart(
        &mut self,
        alloc: Global,
        entries: &[Entry],
        effects: &[Entry],
    ) -> Result<(), CopyFault>
        requires { IsOf self.old entries.now }
        ensures tells { Tells self.old entries.now effects.now self.new }
        ensures told { OnOk result (self.new.restart ≡ None) }
    {
        match self.restart {
            Some(kept) => self.tell_stop(alloc, entries, effects, kept),
            None => Ok(()),
        }
    }

    fn tell_stop(
        &mut self,
        alloc: Global,
        entries: &[Entry],
        effects: &[Entry],
        kept: bool,
    ) -> Result<(), CopyFault>
        requires restart { self.old.restart ≡ Some kept }
        requires of { self.old.entries + kept_count (Some kept) ≤ length entries.now }
        ensures ok { OnOk result (self.new ≡ record self.old {
          moves = self.old.moves ++ moves.Stop (stop_of (kept_at kept entries.now self.old.entries)
              (drop self.old.effects effects.now)) ∷ [];
          free = self.new.free;
          entries = self.old.entries + kept_count (Some kept);
          effects = length effects.now;
          restart = None;
        }) }
        ensures refused { OnErr result (self.new ≡ record self.old { free = self.new.free }) }
    {
        self.reserve()?;
        match found(
            alloc,
            kept_at(kept, entries, self.entries),
            rest(effects, self.effects),
        ) {
            Ok(stop) => {
                self.push_stop(stop, kept, effects.len());
                Ok(())
            }
            Err(fault) => Err(fault),
        }
    }

    fn push_stop(&mut self, stop: Stop, kept: bool, effects: usize)
        requires free { 1 ≤ self.old.free }
        requires within { self.old.entries + kept_count (Some kept) < 2 ^ 64 }
        ensures { self.new ≡ record self.old {
          moves = self.old.moves ++ moves.Stop stop ∷ [];
          free = self.new.free;
          entries = self.old.entries + kept_count (Some kept);
          effects = effects;
          restart = None;
        } }
    {
        self.moves.push_reserved(Move::Stop(stop));
        if kept {
            self.entries += 1;
        }
        self.effects = effects;
        self.restart = None;
    }

    #[tactic(auto, using(crate::proofs::StoryLemmas::none_told, crate::proofs::StoryLemmas::told_freely, crate::proofs::StoryLemmas::one_told))]
    fn tell_notes(&mut self, alloc: Global, entries: &[Entry]) -> Result<(), CopyFault>
        requires of { self.old.entries ≤ length entries.now }
        requires no_restart { self.old.restart ≡ None }
        ensures notes { TellsNotes self.old entries.now self.new }
        ensures told { OnOk result (self.new.entries ≡ length entries.now) }
    {
        for place in self.entries..entries.len() {
            self.tell_note(alloc, &entries[place])?;
            self.entries = place + 1;
        }
        Ok(())
    }

    fn tell_note(&mut self, alloc: Global, entry: &Entry) -> Result<(), CopyFault>
        ensures ok { OnOk result (self.new ≡ record self.old {
          moves = self.old.moves ++ moves.Note entry.now ∷ [];
          free = self.new.free;
        }) }
        ensures refused { OnErr result (self.new ≡ record self.old { free = self.new.free }) }
    {
        self.reserve()?;
        let entry = entry.copy(alloc)?;
        self.moves.push_reserved(Move::Note(entry));
        Ok(())
    }

    fn tell_halt(&mut self) -> Result<(), CopyFault>
        ensures ok { OnOk result (self.new ≡ record self.old {
          moves = self.old.moves ++ halts self.old.halt;
          free = self.new.free;
          halt = None;
        }) }
        ensures refused { OnErr result (self.new ≡ record self.old { free = self.new.free }) }
    {
        let Some(cause) = self.halt else {
            return Ok(());
        };
        self.moves.reserve(1)?;
        self.moves.push_reserved(Move::Halt(cause));
        self.halt = None;
        Ok(())
    }

    // Makes two places free: one for a move, and one that stays for a halt.
    fn reserve(&mut self) -> Result<(), CopyFault>
        ensures same { self.new ≡ record self.old { free = self.new.free } }
        ensures free { OnOk result (2 ≤ self.new.free) }
    {
        Ok(self.moves.reserve(2)?)
    }
}

impl History {
    /// What a call of the book did is told, and the halt that came of it, as far as there is memory. Whether all of it was
    /// told.
    pub fn follow(
        &mut self,
        alloc: Global,
        entries: &[Entry],
        effects: &[Entry],
        halt: Option<Cause>,
    ) -> bool
        requires of { IsOf self.old entries.now }
        requires running { self.old.is_halted ≡ false }
        ensures follows { Follows self.old entries.now effects.now halt self.new }
        ensures told { result ≡ true → IsTold self.new × (self.new.entries ≡ length entries.now) }
    {
        self.stand(halt);
        match self.tell(alloc, entries, effects) {
            Ok(()) => true,
            Err(_) => false,
        }
    }

    /// Adds a move at the end, where all was told before, and answers its place.
    pub fn push(&mut self, step: Move) -> usize
        requires { 1 ≤ self.old.free }
        ensures pushed { self.new ≡ record self.old { moves = self.old.moves ++ step ∷ []; free = self.new.free } }
        ensures place { result ≡ length self.old.moves }
    {
        let place = self.moves.len();
        self.moves.push_reserved(step);
        place
    }

    /// The same of a move that tells what the cloud has had done to it by now.
    pub fn push_with(&mut self, step: Move, effects: usize) -> usize
        requires { 1 ≤ self.old.free }
        ensures pushed { self.new ≡ record self.old {
          moves = self.old.moves ++ step ∷ [];
          free = self.new.free;
          effects = effects;
        } }
        ensures place { result ≡ length self.old.moves }
    {
        self.effects = effects;
        self.push(step)
    }
}

// The entry at a place, where one was kept.
fn kept_at(kept: bool, entries: &[Entry], place: usize) -> Option<&Entry>
    ensures { option_copied result ≡ kept_at kept entries.now place }
{
    if kept { entries.get(place) } else { None }
}

// What stands at a place or after it.
fn rest(entries: &[Entry], from: usize) -> &[Entry]
    ensures { result.now ≡ drop from entries.now }
{
    match entries.get(from..) {
        Some(rest) => rest,
        None => &[],
    }
}
