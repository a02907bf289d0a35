//! Jobs whose files an instance has.
ghost use Rattle.std.specs.Prelude.{◌≡◌};

use bosh_base::{Name, TemplateSpec};
use bosh_template::JobEnv;
use std::marker::Model;

/// A job of a group: its templates by source, and what they look up in any instance of the group.
#[derive(Drop)]
pub struct FiledJob<'a, 'l> {
    name: &'a Name,
    templates: &'a [TemplateSpec],
    env: JobEnv<'a, 'l>,
}

impl<'a, 'l> Model for FiledJob<'a, 'l> {
    ghost use Rattle.std.specs.Coded.{codes};
    ghost use Rattle.bosh_yaml.specs.Code.{tree_code};
    ghost use Rattle.bosh_files.specs.Files.{FiledJob};

    ghost Value = { FiledJob };

    ghost coded = { Prim.hlevel (codes, tree_code) };

    ghost view = { λ job. record { name = job.name.now; templates = job.templates.now; env = job.env } };
}

impl<'a, 'l> FiledJob<'a, 'l> {
    pub fn of(
        name: &'a Name,
        templates: &'a [TemplateSpec],
        env: JobEnv<'a, 'l>,
    ) -> FiledJob<'a, 'l>
        ensures { result ≡ record { name = name.now; templates = templates.now; env = env.entry } }
    {
        FiledJob {
            name,
            templates,
            env,
        }
    }

    pub fn name(&self) -> &'a Name
        ensures { result.now ≡ self.now.name }
    {
        self.name
    }

    /// By source.
    pub fn templates(&self) -> &'a [TemplateSpec]
        ensures { result.now ≡ self.now.templates }
    {
        self.templates
    }

    /// What the templates look up in any instance of the group.
    pub fn env(&self) -> &JobEnv<'a, 'l>
        ensures { result.now ≡ self.now.env }
    {
        &self.env
    }
}
