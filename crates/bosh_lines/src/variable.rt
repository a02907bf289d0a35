ghost use Rattle.std.specs.Prelude.{◌≡◌, ◌==◌, IfErr, IfOk, IfSome, position};
ghost use Rattle.std.specs.Option.{option_map};
ghost use Rattle.std.specs.Str.{IsUtf8};
ghost use Rattle.bosh_lines.specs.Variable.{variable, variable_of, variables_in};
ghost use Rattle.bosh_line_words.specs.Words.{words_in};
ghost use Rattle.bosh_line_words.specs.declared.fault.LineFault.TheVariants.{Memory};

use bosh_base::Seq;
use bosh_line_words::{LineFault, Place, Rest, is_text};
use bosh_vars::is_name;
use bosh_yaml::Str;
use std::alloc::Global;

/// A variable of a deploy, as it is written: what its value stands for is read later, as a plain scalar's.
#[derive(Drop)]
pub struct Variable {
    pub name: Str,
    pub value: Str,
}

/// A word `NAME=VALUE`, before it is copied.
#[derive(Clone, Copy)]
pub(crate) struct VariableWord<'a> {
    name: &'a [u8],
    value: &'a [u8],
}

fn equals_sign(word: &[u8]) -> Option<usize>
    ensures { result ≡ position (λ byte. byte == 61) word.now }
{
    word.iter().position(|byte| *byte == b'=')
}

fn variable_of(word: &[u8]) -> Option<VariableWord<'_>>
    ensures parts { option_map (λ word. variable word.name.now word.value.now) result ≡ variable_of word.now }
    ensures utf8 { IfSome result (λ word. IsUtf8 word.name.now × IsUtf8 word.value.now) }
{
    let end = equals_sign(word)?;
    let (name, value) = (&word[..end], &word[end + 1..]);
    if is_name(name) && is_text(value) {
        Some(VariableWord { name, value })
    } else {
        None
    }
}

impl<'a> Place<'a> for VariableWord<'a> {
    ghost use Rattle.std.specs.Prelude.{◌≡◌, Some, is_some};
    ghost use Rattle.bosh_lines.specs.Variable.{variable, variable_of};

    ghost fits = { λ text. is_some (variable_of text) };

    ghost reads = { λ text word. variable_of text ≡ Some (variable word.name.now word.value.now) };

    fn read(text: &'a [u8]) -> Option<Self> {
        variable_of(text)
    }
}

fn copied(alloc: Global, word: VariableWord<'_>) -> Result<Variable, LineFault>
    requires name { IsUtf8 word.name.now }
    requires value { IsUtf8 word.value.now }
    ensures ok { IfOk result (λ copy. copy ≡ variable word.entry.name.now word.entry.value.now) }
    ensures refused { IfErr result (λ fault. fault ≡ Memory) }
{
    let name = Str::from_utf8(alloc, word.name)?;
    let value = Str::from_utf8(alloc, word.value)?;
    Ok(Variable { name, value })
}

/// The variables among the words that are left.
pub(crate) fn variables(alloc: Global, rest: Rest<'_>) -> Result<Seq<Variable>, LineFault>
    ensures ok { IfOk result (λ all. all ≡ variables_in (words_in rest.entry)) }
    ensures refused { IfErr result (λ fault. fault ≡ Memory) }
{
    let mut all = Vec::new(alloc);
    let mut left = rest;
    while let Some((word, more)) = left.next() {
        if let Some(word) = variable_of(word.text) {
            all.push(copied(alloc, word)?)?;
        }
        left = more;
    }
    Ok(Seq::from(all))
}
