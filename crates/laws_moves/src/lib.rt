//! What a move does, part by part: a fact that each part keeps is kept by each permitted move, stops included.
#![tactic(auto)]

ghost use Rattle.laws_facts.specs.Facts.{Holds};
ghost use Rattle.laws_facts.specs.Kept.{IsKeptByAll};
ghost use Rattle.laws_moves.specs.Parts.{IsKeptByParts};

/// Where each part of a move keeps all facts, each permitted move does.
pub fn what_each_part_keeps_is_kept()
    ensures { IsKeptByParts Holds → IsKeptByAll Holds }
{}
