//! Lines that let calls and appends fail, that stop the director, and that are about one instance of any deployment.
ghost use Rattle.std.specs.Prelude.{◌≡◌, ◌≤◌, IfErr, IfOk, length};
ghost use Rattle.std.specs.Option.{option_map, option_to_list};
ghost use Rattle.bosh_line_words.specs.Grammar.{IsRefused};
ghost use Rattle.bosh_line_words.specs.Words.{word_of, words_in};
ghost use Rattle.bosh_lines.specs.Forms.{IsRead, fail_call_form, fail_store_form, lose_form, read_form, show_form, stop_call_form, stop_store_form, write_form};
ghost use Rattle.bosh_lines.specs.Lines.{written, written_text};

use crate::site::copied;
use crate::word::{FateWord, Store};
use crate::{Command, Lost, Others, StopCall, When};
use bosh_base::Method;
use bosh_fates::Doom;
use bosh_line_words::{
    InstWord, LineFault, Number, Path, Place, Rest, Whose, Word, five, four, one, three, two,
};
use std::alloc::Global;

/// Which call or append from now on.
type Count = Number<1, 1_000_000>;

#[tactic(auto, using(bosh_line_words::proofs::GrammarLemmas::reading))]
pub(crate) fn fail_store(rest: Rest<'_>) -> Result<Command, LineFault>
    ensures ok { IfOk result (IsRead fail_store_form (words_in rest.entry)) }
    ensures refused { IfErr result (IsRefused fail_store_form.places fail_store_form.options (words_in rest.entry)) }
{
    let (Store, FateWord(fate), Number(appends)) = three::<Store, FateWord, Count>(rest)?;
    Ok(Command::FailStore { fate, appends })
}

#[tactic(auto, using(bosh_line_words::proofs::GrammarLemmas::reading))]
pub(crate) fn fail_call(alloc: Global, rest: Rest<'_>) -> Result<Command, LineFault>
    ensures ok { IfOk result (IsRead fail_call_form (words_in rest.entry)) }
    ensures refused { IfErr result (IsRefused fail_call_form.places fail_call_form.options (words_in rest.entry)) }
{
    let (FateWord(fate), method, whose, Number(calls)) = four::<FateWord, Method, Whose<'_>, Count>(
        rest,
    )?;
    let owner = whose.owned(alloc)?;
    Ok(Command::FailCall(Doom {
        method,
        owner,
        calls,
        fate,
    }))
}

#[tactic(auto, using(bosh_line_words::proofs::GrammarLemmas::reading))]
pub(crate) fn stop_store(rest: Rest<'_>) -> Result<Command, LineFault>
    ensures ok { IfOk result (IsRead stop_store_form (words_in rest.entry)) }
    ensures refused { IfErr result (IsRefused stop_store_form.places stop_store_form.options (words_in rest.entry)) }
{
    let (when, Store, Number(appends)) = three::<When, Store, Count>(rest)?;
    Ok(Command::StopStore { when, appends })
}

#[tactic(auto, using(bosh_line_words::proofs::GrammarLemmas::reading))]
pub(crate) fn stop_call(alloc: Global, rest: Rest<'_>) -> Result<Command, LineFault>
    ensures ok { IfOk result (IsRead stop_call_form (words_in rest.entry)) }
    ensures refused { IfErr result (IsRefused stop_call_form.places stop_call_form.options (words_in rest.entry)) }
{
    let (when, method, whose, Number(calls), others) = five::<
        When,
        Method,
        Whose<'_>,
        Count,
        Others,
    >(rest)?;
    let owner = whose.owned(alloc)?;
    Ok(Command::StopCall(StopCall {
        when,
        method,
        owner,
        calls,
        others,
    }))
}

#[tactic(auto, using(bosh_line_words::proofs::GrammarLemmas::reading))]
pub(crate) fn read(alloc: Global, rest: Rest<'_>) -> Result<Command, LineFault>
    ensures ok { IfOk result (IsRead read_form (words_in rest.entry)) }
    ensures refused { IfErr result (IsRefused read_form.places read_form.options (words_in rest.entry)) }
{
    let inst = one::<InstWord<'_>>(rest)?;
    let inst = inst.member.of(alloc, inst.dep)?;
    Ok(Command::Read(inst))
}

#[tactic(auto, using(bosh_line_words::proofs::GrammarLemmas::reading))]
pub(crate) fn show(alloc: Global, rest: Rest<'_>) -> Result<Command, LineFault>
    ensures ok { IfOk result (IsRead show_form (words_in rest.entry)) }
    ensures refused { IfErr result (IsRefused show_form.places show_form.options (words_in rest.entry)) }
{
    let (inst, Path(path)) = two::<InstWord<'_>, Path<'_>>(rest)?;
    let inst = inst.member.of(alloc, inst.dep)?;
    let path = copied(alloc, path)?;
    Ok(Command::Show { inst, path })
}

#[tactic(auto, using(bosh_line_words::proofs::GrammarLemmas::reading))]
pub(crate) fn lose(alloc: Global, rest: Rest<'_>) -> Result<Command, LineFault>
    ensures ok { IfOk result (IsRead lose_form (words_in rest.entry)) }
    ensures refused { IfErr result (IsRefused lose_form.places lose_form.options (words_in rest.entry)) }
{
    let (lost, inst) = two::<Lost, InstWord<'_>>(rest)?;
    let inst = inst.member.of(alloc, inst.dep)?;
    Ok(Command::Lose { inst, lost })
}

// The most bytes that a line writes.
const MOST_WRITTEN: usize = 200;

// What follows the one space after a word of a line.
fn text_after<'a>(line: &'a [u8], word: Word<'_>) -> Option<Word<'a>>
    requires { length line.now ≤ 1048576 }
    ensures { written_text line.now (word_of word.entry) ≡ option_to_list (option_map word_of result) }
{
    let start = word.place as usize + word.text.len() + 1;
    if start > line.len() {
        return None;
    }
    Some(Word {
        text: &line[start..],
        place: start as u32,
    })
}

pub(crate) fn write(alloc: Global, line: &[u8], rest: Rest<'_>) -> Result<Command, LineFault>
    requires { length line.now ≤ 1048576 }
    ensures ok { IfOk result (IsRead write_form (written line.now (words_in rest.entry))) }
    ensures refused { IfErr result (IsRefused write_form.places write_form.options (written line.now (words_in rest.entry))) }
{
    let Some((word, _)) = rest.next() else {
        return Err(LineFault::Missing);
    };
    let Some(inst) = InstWord::read(word.text) else {
        return Err(LineFault::BadArgument { place: word.place });
    };
    let Some(text) = text_after(line, word) else {
        return Err(LineFault::Missing);
    };
    if text.text.len() > MOST_WRITTEN {
        return Err(LineFault::BadArgument { place: text.place });
    }
    let inst = inst.member.of(alloc, inst.dep)?;
    let text = copied(alloc, text.text)?;
    Ok(Command::Write { inst, text })
}
