//! What templates look up.
ghost use Rattle.std.specs.Prelude.{◌≡◌, IfOk, find};
ghost use Rattle.std.specs.List.{list_any};
ghost use Rattle.std.specs.Option.{option_copied};
ghost use Rattle.std.specs.Str.{bytes_eq};
ghost use Rattle.bosh_yaml.specs.View.{tree_of};

use bosh_base::{Addr, Name, Prop, PropSpec, Text};
use bosh_lookup::{Named, Table, find, has, table_of};
use bosh_yaml::Node;
use std::alloc::{AllocError, Global};
use std::marker::Model;

/// What the provider of a link gives to its consumer.
#[derive(Drop)]
pub struct LinkEnv<'a> {
    name: &'a Name,
    listed: &'a [Text],
    listed_names: Table<'a, &'a Text>,
    props: &'a [Prop],
    props_by_name: Table<'a, &'a Prop>,
    addrs: &'a [Addr],
}

impl<'a> Model for LinkEnv<'a> {
    ghost use Rattle.std.specs.Coded.{codes};
    ghost use Rattle.bosh_lookup.specs.Table.{IsTable};
    ghost use Rattle.bosh_template.specs.Environment.{LinkEnv, own_name, prop_name};

    ghost Value = { LinkEnv };

    ghost coded = { Prim.hlevel codes };

    ghost view = { λ link. record {
      name = link.name.now;
      listed = link.listed.now;
      props = link.props.now;
      addrs = link.addrs.now;
    } };

    ghost invariant = { λ link. IsTable own_name link.listed.now link.listed_names
        × IsTable prop_name link.props.now link.props_by_name };
}

impl<'a> Named for LinkEnv<'a> {
    ghost use Rattle.bosh_template.specs.Environment.{link_name};

    ghost name_of = { link_name };

    fn name(&self) -> &[u8] {
        self.name.as_bytes()
    }
}

impl<'a> LinkEnv<'a> {
    /// A link as the consumer calls it, with the names of the properties that the provider lists, those of them that have
    /// a value, and the addresses of the provider's instances by index.
    pub fn of(
        alloc: Global,
        name: &'a Name,
        listed: &'a [Text],
        props: &'a [Prop],
        addrs: &'a [Addr],
    ) -> Result<LinkEnv<'a>, AllocError>
        ensures { IfOk result (λ link. link
            ≡ record { name = name.now; listed = listed.now; props = props.now; addrs = addrs.now }) }
    {
        let listed_names = table_of(alloc, listed)?;
        let props_by_name = table_of(alloc, props)?;
        Ok(LinkEnv {
            name,
            listed,
            listed_names,
            props,
            props_by_name,
            addrs,
        })
    }

    /// Whether the provider lists a property.
    pub(crate) fn lists(&self, name: &Text) -> bool
        ensures { result ≡ list_any (λ listed. bytes_eq listed name.now) self.now.listed }
    {
        has(&self.listed_names, name.as_slice())
    }

    /// The property of the provider that has a value.
    pub(crate) fn prop(&self, name: &Text) -> Option<&'a Prop>
        ensures { option_copied result ≡ find (λ prop. bytes_eq prop.name name.now) self.now.props }
    {
        find(&self.props_by_name, name.as_slice())
    }

    pub(crate) fn addrs(&self) -> &'a [Addr]
        ensures { result.now ≡ self.now.addrs }
    {
        self.addrs
    }
}

/// What the templates of a job look up, in any instance of its group.
#[derive(Drop)]
pub struct JobEnv<'a, 'l> {
    dep: &'a Name,
    group: &'a Name,
    declared: &'a [PropSpec],
    declared_by_name: Table<'a, &'a PropSpec>,
    given: &'a Node,
    links: &'l [LinkEnv<'a>],
    links_by_name: Table<'l, &'l LinkEnv<'a>>,
}

impl<'a, 'l> Model for JobEnv<'a, 'l> {
    ghost use Rattle.std.specs.Coded.{codes};
    ghost use Rattle.bosh_lookup.specs.Table.{IsTable};
    ghost use Rattle.bosh_yaml.specs.Code.{tree_code};
    ghost use Rattle.bosh_yaml.specs.View.{tree_of};
    ghost use Rattle.bosh_template.specs.Environment.{JobEnv, link_name, prop_spec_name};

    ghost Value = { JobEnv };

    ghost coded = { Prim.hlevel (codes, tree_code) };

    ghost view = { λ job. record {
      dep = job.dep.now;
      group = job.group.now;
      declared = job.declared.now;
      given = tree_of job.given.now;
      links = job.links.now;
    } };

    ghost invariant = { λ job. IsTable prop_spec_name job.declared.now job.declared_by_name
        × IsTable link_name job.links.now job.links_by_name };
}

impl<'a, 'l> JobEnv<'a, 'l> {
    /// A job of a group, with the properties that its specification declares, those that the manifest gives to it, and its
    /// links that have a provider.
    pub fn of(
        alloc: Global,
        dep: &'a Name,
        group: &'a Name,
        declared: &'a [PropSpec],
        given: &'a Node,
        links: &'l [LinkEnv<'a>],
    ) -> Result<JobEnv<'a, 'l>, AllocError>
        ensures { IfOk result (λ job. job ≡ record {
          dep = dep.now;
          group = group.now;
          declared = declared.now;
          given = tree_of given.now;
          links = links.now;
        }) }
    {
        let declared_by_name = table_of(alloc, declared)?;
        let links_by_name = table_of(alloc, links)?;
        Ok(JobEnv {
            dep,
            group,
            declared,
            declared_by_name,
            given,
            links,
            links_by_name,
        })
    }

    pub(crate) fn dep(&self) -> &'a Name
        ensures { result.now ≡ self.now.dep }
    {
        self.dep
    }

    pub(crate) fn group(&self) -> &'a Name
        ensures { result.now ≡ self.now.group }
    {
        self.group
    }

    /// The properties that the manifest gives.
    pub(crate) fn given(&self) -> &'a Node
        ensures { tree_of result.now ≡ self.now.given }
    {
        self.given
    }

    /// The declaration of a property.
    pub(crate) fn declared(&self, name: &Text) -> Option<&'a PropSpec>
        ensures { option_copied result ≡ find (λ spec. bytes_eq spec.name name.now) self.now.declared }
    {
        find(&self.declared_by_name, name.as_slice())
    }

    /// The link of a name.
    pub(crate) fn link(&self, name: &Text) -> Option<&'l LinkEnv<'a>>
        ensures { option_copied result ≡ find (λ link. bytes_eq link.name name.now) self.now.links }
    {
        find(&self.links_by_name, name.as_slice())
    }
}

/// What a template of a job is rendered with, for one instance.
#[derive(Drop)]
pub struct Env<'a, 'l, 'e> {
    job: &'e JobEnv<'a, 'l>,
    index: u32,
    az: &'e Name,
    addr: Addr,
}

impl<'a, 'l, 'e> Model for Env<'a, 'l, 'e> {
    ghost use Rattle.std.specs.Coded.{codes};
    ghost use Rattle.bosh_yaml.specs.Code.{tree_code};
    ghost use Rattle.bosh_template.specs.Environment.{Env};

    ghost Value = { Env };

    ghost coded = { Prim.hlevel (codes, tree_code) };

    ghost view = { λ env. record { job = env.job.now; index = env.index; az = env.az.now; addr = env.addr } };
}

impl<'a, 'l, 'e> Env<'a, 'l, 'e> {
    /// An instance by its index in its group, from 0, with its availability zone and its address on the gateway's network.
    pub fn of(job: &'e JobEnv<'a, 'l>, index: u32, az: &'e Name, addr: Addr) -> Env<'a, 'l, 'e>
        ensures { result ≡ record { job = job.now; index = index; az = az.now; addr = addr } }
    {
        Env {
            job,
            index,
            az,
            addr,
        }
    }

    pub(crate) fn job(&self) -> &'e JobEnv<'a, 'l>
        ensures { result.now ≡ self.now.job }
    {
        self.job
    }

    pub(crate) fn index(&self) -> u32
        ensures { result ≡ self.now.index }
    {
        self.index
    }

    pub(crate) fn az(&self) -> &'e Name
        ensures { result.now ≡ self.now.az }
    {
        self.az
    }

    pub(crate) fn addr(&self) -> Addr
        ensures { result ≡ self.now.addr }
    {
        self.addr
    }
}
