//! Templates.
use bosh_base::{Addr, Name, Prop, PropSpec, Seq, Text};
use bosh_template::{Env, JobEnv, LinkEnv, TemplateFault, parse_template, render};
use bosh_yaml::{Copied, Node};
use cases_files::outcome;
use cases_given::{CaseFault, Given, Outcome, all, both, four, there, two};
use std::alloc::{AllocError, Global};

/// What the provider of a link gives in a case.
#[derive(Drop)]
struct GivenLink {
    name: Name,
    listed: Seq<Text>,
    props: Seq<Prop>,
    addrs: Seq<Addr>,
}

/// What a template looks up in a case.
#[derive(Drop)]
struct Setting {
    dep: Name,
    group: Name,
    az: Name,
    declared: Seq<PropSpec>,
    given: Node,
    links: Seq<GivenLink>,
}

fn link(alloc: Global, node: &Node) -> Result<GivenLink, CaseFault> {
    let (name, listed, props, addrs) = four(alloc, node, ["name", "listed", "props", "addrs"])?;
    Ok(GivenLink {
        name,
        listed,
        props,
        addrs,
    })
}

// The properties that a manifest gives.
fn properties(alloc: Global, node: &Node) -> Result<Node, CaseFault> {
    Ok(there(node, "given")?.copy(alloc)?)
}

fn looked_up(alloc: Global, node: &Node) -> Result<Setting, CaseFault> {
    let own = four(alloc, node, ["dep", "group", "az", "declared"]);
    let looked_up = both(properties(alloc, node), all(alloc, node, "links", link));
    let ((dep, group, az, declared), (given, links)) = both(own, looked_up)?;
    Ok(Setting {
        dep,
        group,
        az,
        declared,
        given,
        links,
    })
}

fn link_envs<'a>(alloc: Global, links: &'a [GivenLink]) -> Result<Vec<LinkEnv<'a>>, AllocError> {
    let mut envs = Vec::new(alloc);
    for link in links {
        let listed = link.listed.as_slice();
        let props = link.props.as_slice();
        let addrs = link.addrs.as_slice();
        envs.push(LinkEnv::of(alloc, &link.name, listed, props, addrs)?)?;
    }
    Ok(envs)
}

fn rendered(
    alloc: Global,
    text: &[u8],
    setting: &Setting,
    index: u32,
    addr: Addr,
) -> Result<Text, TemplateFault> {
    let template = parse_template(alloc, text)?;
    let links = link_envs(alloc, setting.links.as_slice())?;
    let declared = setting.declared.as_slice();
    let job = JobEnv::of(
        alloc,
        &setting.dep,
        &setting.group,
        declared,
        &setting.given,
        links.as_slice(),
    )?;
    render(alloc, &template, &Env::of(&job, index, &setting.az, addr))
}

fn told(alloc: Global, text: &Text) -> Result<Vec<u8>, CaseFault> {
    Ok(Vec::from_slice(alloc, text.as_slice())?)
}

/// The text of a template, with what the setting lets it look up.
pub(crate) fn text(
    alloc: Global,
    given_setting: &Node,
    given: &Node,
) -> Result<Outcome, CaseFault> {
    let (index, addr) = two(alloc, given_setting, ["index", "addr"])?;
    let (template, setting) = both(Text::of(alloc, given), looked_up(alloc, given_setting))?;
    let answer = rendered(alloc, template.as_slice(), &setting, index, addr);
    outcome(alloc, answer, told)
}
