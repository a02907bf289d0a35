ghost use Rattle.std.specs.Prelude.{◌≡◌};

use crate::coded::Coded;
use crate::fault::EntryFault;
use crate::format::Format;
use crate::pair::{write_four, write_three};
use crate::source::Source;
use crate::variant::{write_place, write_variant};
use bosh_base::{
    JobSpec, LinkSpec, PackageSpec, Prop, PropSpec, Release, Setting, TemplateSpec, Text,
};
use std::alloc::Global;

impl Coded for Setting {
    ghost use Rattle.bosh_entry.specs.Release.{setting, is_setting, setting_at};

    ghost spelling = { λ _. setting };

    ghost fits = { λ _. is_setting };

    ghost reading = { λ _. setting_at };

    #[tactic(auto, unfolding(crate::specs::Release::setting, crate::specs::Release::is_setting))]
    fn write(&self, out: &mut Vec<u8>) -> Result<(), EntryFault> {
        match self {
            Setting::Scalar(text) => write_variant(0, text, out),
            Setting::Compound => write_place(1, out),
        }
    }

    #[tactic(auto, unfolding(crate::specs::Release::setting_at))]
    fn read(alloc: Global, format: Format, from: &mut Source) -> Result<Self, EntryFault> {
        match from.byte()? {
            0 => Ok(Setting::Scalar(Text::read(alloc, format, from)?)),
            1 => Ok(Setting::Compound),
            _ => Err(EntryFault::NotAnEntry),
        }
    }
}

impl Coded for Prop {
    ghost use Rattle.bosh_entry.specs.Release.{prop, is_prop, prop_at};

    ghost spelling = { λ _. prop };

    ghost fits = { λ _. is_prop };

    ghost reading = { λ _. prop_at };

    #[tactic(auto, unfolding(crate::specs::Release::prop, crate::specs::Release::is_prop))]
    fn write(&self, out: &mut Vec<u8>) -> Result<(), EntryFault> {
        self.name.write(out)?;
        self.value.write(out)
    }

    #[tactic(auto, unfolding(crate::specs::Release::prop_at))]
    fn read(alloc: Global, format: Format, from: &mut Source) -> Result<Self, EntryFault> {
        Ok(Prop {
            name: Text::read(alloc, format, from)?,
            value: Setting::read(alloc, format, from)?,
        })
    }
}

impl Coded for PropSpec {
    ghost use Rattle.bosh_entry.specs.Release.{prop_spec, is_prop_spec, prop_spec_at};

    ghost spelling = { λ _. prop_spec };

    ghost fits = { λ _. is_prop_spec };

    ghost reading = { λ _. prop_spec_at };

    #[tactic(auto, unfolding(crate::specs::Release::prop_spec, crate::specs::Release::is_prop_spec))]
    fn write(&self, out: &mut Vec<u8>) -> Result<(), EntryFault> {
        self.name.write(out)?;
        self.fallback.write(out)
    }

    #[tactic(auto, unfolding(crate::specs::Release::prop_spec_at))]
    fn read(alloc: Global, format: Format, from: &mut Source) -> Result<Self, EntryFault> {
        Ok(PropSpec {
            name: Text::read(alloc, format, from)?,
            fallback: Option::read(alloc, format, from)?,
        })
    }
}

impl Coded for LinkSpec {
    ghost use Rattle.bosh_entry.specs.Release.{link_spec, is_link_spec, link_spec_at};

    ghost spelling = { λ _. link_spec };

    ghost fits = { λ _. is_link_spec };

    ghost reading = { λ _. link_spec_at };

    #[tactic(auto, unfolding(crate::specs::Release::link_spec, crate::specs::Release::is_link_spec))]
    fn write(&self, out: &mut Vec<u8>) -> Result<(), EntryFault> {
        self.name.write(out)?;
        self.kind.write(out)?;
        self.optional.write(out)?;
        self.properties.write(out)
    }

    #[tactic(auto, using(crate::proofs::StructLemmas::link_spec_parts))]
    fn read(alloc: Global, format: Format, from: &mut Source) -> Result<Self, EntryFault> {
        let fields = Coded::read(alloc, format, from)?;
        let ((name, kind), (optional, properties)) = fields;
        Ok(LinkSpec {
            name,
            kind,
            optional,
            properties,
        })
    }
}

impl Coded for TemplateSpec {
    ghost use Rattle.bosh_entry.specs.Release.{template_spec, is_template_spec, template_spec_at};

    ghost spelling = { λ _. template_spec };

    ghost fits = { λ _. is_template_spec };

    ghost reading = { λ _. template_spec_at };

    #[tactic(auto, unfolding(crate::specs::Release::template_spec, crate::specs::Release::is_template_spec))]
    fn write(&self, out: &mut Vec<u8>) -> Result<(), EntryFault> {
        self.source.write(out)?;
        self.destination.write(out)?;
        self.text.write(out)
    }

    #[tactic(auto, using(crate::proofs::StructLemmas::template_spec_parts))]
    fn read(alloc: Global, format: Format, from: &mut Source) -> Result<Self, EntryFault> {
        let fields = Coded::read(alloc, format, from)?;
        let ((source, destination), text) = fields;
        Ok(TemplateSpec {
            source,
            destination,
            text,
        })
    }
}

impl Coded for JobSpec {
    ghost use Rattle.bosh_entry.specs.Release.{job_spec, is_job_spec, job_spec_at};

    ghost spelling = { λ _. job_spec };

    ghost fits = { λ _. is_job_spec };

    ghost reading = { λ _. job_spec_at };

    #[tactic(auto, unfolding(crate::specs::Release::job_spec, crate::specs::Release::is_job_spec))]
    fn write(&self, out: &mut Vec<u8>) -> Result<(), EntryFault> {
        write_four(
            &self.name,
            &self.fingerprint,
            &self.templates,
            &self.packages,
            out,
        )?;
        write_three(&self.properties, &self.provides, &self.consumes, out)
    }

    #[tactic(auto, using(crate::proofs::StructLemmas::job_spec_parts))]
    fn read(alloc: Global, format: Format, from: &mut Source) -> Result<Self, EntryFault> {
        let fields = Coded::read(alloc, format, from)?;
        let (((name, fingerprint), (templates, packages)), ((properties, provides), consumes)) =
            fields;
        Ok(JobSpec {
            name,
            fingerprint,
            templates,
            packages,
            properties,
            provides,
            consumes,
        })
    }
}

impl Coded for PackageSpec {
    ghost use Rattle.bosh_entry.specs.Release.{package_spec, is_package_spec, package_spec_at};

    ghost spelling = { λ _. package_spec };

    ghost fits = { λ _. is_package_spec };

    ghost reading = { λ _. package_spec_at };

    #[tactic(auto, unfolding(crate::specs::Release::package_spec, crate::specs::Release::is_package_spec))]
    fn write(&self, out: &mut Vec<u8>) -> Result<(), EntryFault> {
        self.name.write(out)?;
        self.fingerprint.write(out)?;
        self.deps.write(out)
    }

    #[tactic(auto, using(crate::proofs::StructLemmas::package_spec_parts))]
    fn read(alloc: Global, format: Format, from: &mut Source) -> Result<Self, EntryFault> {
        let fields = Coded::read(alloc, format, from)?;
        let ((name, fingerprint), deps) = fields;
        Ok(PackageSpec {
            name,
            fingerprint,
            deps,
        })
    }
}

impl Coded for Release {
    ghost use Rattle.bosh_entry.specs.Release.{release, is_release, release_at};

    ghost spelling = { λ _. release };

    ghost fits = { λ _. is_release };

    ghost reading = { λ _. release_at };

    #[tactic(auto, unfolding(crate::specs::Release::release, crate::specs::Release::is_release))]
    fn write(&self, out: &mut Vec<u8>) -> Result<(), EntryFault> {
        self.name.write(out)?;
        self.version.write(out)?;
        self.jobs.write(out)?;
        self.packages.write(out)
    }

    #[tactic(auto, using(crate::proofs::StructLemmas::release_parts))]
    fn read(alloc: Global, format: Format, from: &mut Source) -> Result<Self, EntryFault> {
        let fields = Coded::read(alloc, format, from)?;
        let ((name, version), (jobs, packages)) = fields;
        Ok(Release {
            name,
            version,
            jobs,
            packages,
        })
    }
}
