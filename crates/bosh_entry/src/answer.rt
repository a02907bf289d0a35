ghost use Rattle.std.specs.Prelude.{◌≡◌};
ghost use Rattle.bosh_entry.specs.Reading.{Gives};
ghost use Rattle.bosh_entry.specs.Answer.{facts_at};

use crate::coded::Coded;
use crate::fault::EntryFault;
use crate::format::Format;
use crate::pair::write_three;
use crate::source::Source;
use crate::variant::{write_place, write_variant};
use bosh_base::{Answer, Digest, Seq};
use std::alloc::Global;

#[tactic(auto, using(crate::proofs::StructLemmas::facts_parts))]
fn facts(alloc: Global, format: Format, from: &mut Source) -> Result<Answer, EntryFault>
    ensures { Gives result from.new.rest.now (facts_at from.old.rest.now) }
{
    let (spec, (running, drained)) = Coded::read(alloc, format, from)?;
    Ok(Answer::Facts {
        spec,
        running,
        drained,
    })
}

impl Coded for Answer {
    ghost use Rattle.bosh_entry.specs.Answer.{answer, is_answer, answer_at};

    ghost spelling = { λ _. answer };

    ghost fits = { λ _. is_answer };

    ghost reading = { λ _. answer_at };

    #[tactic(auto, unfolding(crate::specs::Answer::answer, crate::specs::Answer::is_answer))]
    fn write(&self, out: &mut Vec<u8>) -> Result<(), EntryFault> {
        match self {
            Answer::Done => write_place(0, out),
            Answer::Cid(number) => write_variant(1, number, out),
            Answer::Found(found) => write_variant(2, found, out),
            Answer::Yes => write_place(3, out),
            Answer::No => write_place(4, out),
            Answer::Disks(items) => write_variant(5, items, out),
            Answer::Facts {
                spec,
                running,
                drained,
            } => {
                out.push(6)?;
                write_three(spec, running, drained, out)
            }
            Answer::Built(digest) => write_variant(7, digest, out),
            Answer::Gone => write_place(8, out),
            Answer::Failed => write_place(9, out),
        }
    }

    #[tactic(auto, unfolding(crate::specs::Answer::answer_at))]
    fn read(alloc: Global, format: Format, from: &mut Source) -> Result<Self, EntryFault> {
        match from.byte()? {
            0 => Ok(Answer::Done),
            1 => u64::read(alloc, format, from).map(Answer::Cid),
            2 => Option::read(alloc, format, from).map(Answer::Found),
            3 => Ok(Answer::Yes),
            4 => Ok(Answer::No),
            5 => Seq::read(alloc, format, from).map(Answer::Disks),
            6 => facts(alloc, format, from),
            7 => Digest::read(alloc, format, from).map(Answer::Built),
            8 => Ok(Answer::Gone),
            9 => Ok(Answer::Failed),
            _ => Err(EntryFault::NotAnEntry),
        }
    }
}
