//! The text of a template for an instance.
ghost use Rattle.std.specs.Prelude.{◌≡◌, ◌⊎◌, ◌++◌, slice_get, None, Some, Ok, IfErr, IfOk};
ghost use Rattle.std.specs.List.{flat_map};
ghost use Rattle.bosh_template.specs.Answer.{IsAnswer};
ghost use Rattle.bosh_template.specs.Output.{Adds};
ghost use Rattle.bosh_template.specs.Rendering.{addr_text, linked_text, link_named, one_addr, own_text, part_text, parts_text, rendered, separated, word_text};
ghost use Rattle.bosh_template.specs.declared.fault.TemplateFault.TheVariants.{Memory, NoLink};

use crate::output::Output;
use crate::value::{add_truth, add_value, given_value, literal_value, setting_value};
use crate::{Env, JobEnv, LinkEnv, Part, SpecWord, Template, TemplateFault};
use bosh_base::{Addr, Copyable, Text};
use std::alloc::Global;

// Adds a property of the job.
fn add_own(
    alloc: Global,
    job: &JobEnv,
    name: &Text,
    fallback: &Option<Text>,
    output: &mut Output,
) -> Result<(), TemplateFault>
    ensures { Adds result output.old output.new (own_text job.now name.now fallback.now) }
{
    let Some(spec) = job.declared(name) else {
        return Err(TemplateFault::Undeclared {
            name: name.copy(alloc)?,
        });
    };
    let default = spec.fallback.as_ref().map(setting_value);
    let value = given_value(job.given(), name)
        .or(default)
        .or(literal_value(fallback));
    add_value(alloc, name, value, output)
}

// Adds a property of a link's provider.
fn add_linked(
    alloc: Global,
    link: &LinkEnv,
    name: &Text,
    fallback: &Option<Text>,
    output: &mut Output,
) -> Result<(), TemplateFault>
    ensures { Adds result output.old output.new (linked_text link.now name.now fallback.now) }
{
    if !link.lists(name) {
        return Err(TemplateFault::Undeclared {
            name: name.copy(alloc)?,
        });
    }
    let given = link.prop(name).map(|prop| setting_value(&prop.value));
    add_value(alloc, name, given.or(literal_value(fallback)), output)
}

// Adds an address.
fn add_addr(alloc: Global, addr: Addr, output: &mut Output) -> Result<(), TemplateFault>
    ensures { Adds result output.old output.new (Ok (addr_text addr)) }
{
    let mut text = Vec::new(alloc);
    bosh_ip::add_addr(&mut text, addr.0)?;
    output.add(text.as_slice())
}

// Adds the address of one of the provider's instances.
fn add_one_addr(
    alloc: Global,
    link: &LinkEnv,
    name: &Text,
    index: u32,
    output: &mut Output,
) -> Result<(), TemplateFault>
    ensures { Adds result output.old output.new (one_addr name.now index (slice_get link.now.addrs index)) }
{
    match link.addrs().get(index as usize) {
        Some(addr) => add_addr(alloc, *addr, output),
        None => Err(TemplateFault::NoInstance {
            name: name.copy(alloc)?,
            index,
        }),
    }
}

// Adds the addresses that stand behind the first.
fn add_others(
    alloc: Global,
    others: &[Addr],
    between: &Text,
    output: &mut Output,
) -> Result<(), TemplateFault>
    ensures { Adds result output.old output.new (Ok (flat_map (λ addr. between.now ++ addr_text addr) others.now)) }
{
    for addr in others {
        output.add(between.as_slice())?;
        add_addr(alloc, *addr, output)?;
    }
    Ok(())
}

// Adds the addresses of all of the provider's instances.
fn add_all_addrs(
    alloc: Global,
    addrs: &[Addr],
    between: &Text,
    output: &mut Output,
) -> Result<(), TemplateFault>
    ensures { Adds result output.old output.new (Ok (separated between.now addrs.now)) }
{
    match addrs {
        [] => Ok(()),
        [first, others @ ..] => {
            add_addr(alloc, *first, output)?;
            add_others(alloc, others, between, output)
        }
    }
}

// Adds a fact of the instance.
fn add_word(
    alloc: Global,
    env: &Env,
    word: SpecWord,
    output: &mut Output,
) -> Result<(), TemplateFault>
    ensures { Adds result output.old output.new (Ok (word_text env.now word)) }
{
    match word {
        SpecWord::Name => output.add(env.job().group().as_bytes()),
        SpecWord::Index => {
            let mut digits = itoa::Buffer::new();
            output.add(digits.format(env.index()).as_bytes())
        }
        SpecWord::Az => output.add(env.az().as_bytes()),
        SpecWord::Address => add_addr(alloc, env.addr(), output),
        SpecWord::Deployment => output.add(env.job().dep().as_bytes()),
        SpecWord::Bootstrap => add_truth(output, env.index() == 0),
    }
}

// The link of a name, or the refusal where it has no provider.
fn tied<'a, 'l>(
    alloc: Global,
    job: &JobEnv<'a, 'l>,
    name: &Text,
) -> Result<&'l LinkEnv<'a>, TemplateFault>
    ensures ok { IfOk result (λ link. link_named job.now name.now ≡ Some link.now) }
    ensures err { IfErr result (λ fault. (fault ≡ Memory) ⊎ ((fault ≡ NoLink name.now) × (link_named job.now name.now ≡ None))) }
{
    match job.link(name) {
        Some(link) => Ok(link),
        None => Err(TemplateFault::NoLink {
            name: name.copy(alloc)?,
        }),
    }
}

// Adds what a part comes to.
fn add_part(alloc: Global, env: &Env, part: &Part, output: &mut Output) -> Result<(), TemplateFault>
    ensures { Adds result output.old output.new (part_text env.now part.now) }
{
    match part {
        Part::Literal(text) => output.add(text.as_slice()),
        Part::Own { name, fallback } => add_own(alloc, env.job(), name, fallback, output),
        Part::Linked {
            link,
            name,
            fallback,
        } => add_linked(alloc, tied(alloc, env.job(), link)?, name, fallback, output),
        Part::OneAddr { link, index } => {
            add_one_addr(alloc, tied(alloc, env.job(), link)?, link, *index, output)
        }
        Part::AllAddrs { link, between } => {
            let addrs = tied(alloc, env.job(), link)?.addrs();
            add_all_addrs(alloc, addrs, between, output)
        }
        Part::Word(word) => add_word(alloc, env, *word, output),
    }
}

// Adds what parts come to, one after another.
fn add_parts(
    alloc: Global,
    env: &Env,
    parts: &[Part],
    output: &mut Output,
) -> Result<(), TemplateFault>
    ensures { Adds result output.old output.new (parts_text env.now parts.now) }
{
    for part in parts {
        add_part(alloc, env, part, output)?;
    }
    Ok(())
}

/// The text of a template for an instance: its literal text, and what each lookup comes to. A property has
/// the manifest's value at its dotted path, else its default, else the literal of the lookup, where null
/// counts as none; a list or a mapping is refused, as is a name that is not declared. The refusal is that
/// of the first lookup that has one, and `Limit` where the text is longer than 1,048,576 bytes.
pub fn render(alloc: Global, template: &Template, env: &Env) -> Result<Text, TemplateFault>
    ensures { IsAnswer result (rendered template.now env.now) }
{
    let mut output = Output::new(alloc);
    add_parts(alloc, env, template.parts.as_slice(), &mut output)?;
    output.into_text()
}
