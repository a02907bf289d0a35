//! The values that a job shares with those that its links are tied to.
ghost use Rattle.std.specs.Prelude.{◌≡◌, IfOk, Some, option_map};
ghost use Rattle.std.specs.Option.{option_copied};
ghost use Rattle.bosh_base.specs.declared.release.Setting.TheVariants.{Scalar};
ghost use Rattle.bosh_template.specs.Property.{default_of, property_of};
ghost use Rattle.bosh_template.specs.Setting.{truth};
ghost use Rattle.bosh_template.specs.Value.{setting};

use crate::JobEnv;
use crate::value::{Value, given_value, setting_value};
use bosh_base::{PropSpec, Setting, Text};
use std::alloc::{AllocError, Global};

fn text_of(alloc: Global, bytes: &[u8]) -> Result<Text, AllocError>
    ensures { IfOk result (λ text. text ≡ bytes.now) }
{
    Ok(Text::from(Vec::from_slice(alloc, bytes)?))
}

fn scalar_of(alloc: Global, bytes: &[u8]) -> Result<Option<Setting>, AllocError>
    ensures { IfOk result (λ found. found ≡ Some (Scalar bytes.now)) }
{
    Ok(Some(Setting::Scalar(text_of(alloc, bytes)?)))
}

fn truth_of(alloc: Global, is: bool) -> Result<Option<Setting>, AllocError>
    ensures { IfOk result (λ found. found ≡ Some (Scalar (truth is))) }
{
    if is {
        scalar_of(alloc, b"true")
    } else {
        scalar_of(alloc, b"false")
    }
}

fn owned(alloc: Global, value: Option<Value>) -> Result<Option<Setting>, AllocError>
    ensures { IfOk result (λ found. found ≡ option_map setting value.entry) }
{
    match value {
        None => Ok(None),
        Some(Value::Compound) => Ok(Some(Setting::Compound)),
        Some(Value::Text(text)) => scalar_of(alloc, text),
        Some(Value::Bool(is)) => truth_of(alloc, is),
        Some(Value::Int(number)) => {
            let mut digits = itoa::Buffer::new();
            scalar_of(alloc, digits.format(number).as_bytes())
        }
    }
}

fn default_of(declared: Option<&PropSpec>) -> Option<Value<'_>>
    ensures { option_map setting result ≡ default_of (option_copied declared.entry) }
{
    match declared {
        None => None,
        Some(spec) => spec.fallback.as_ref().map(setting_value),
    }
}

/// The value of a property of a job, where it has one: what the manifest gives at its dotted path, else its default; null
/// counts as none.
pub fn property(alloc: Global, job: &JobEnv, name: &Text) -> Result<Option<Setting>, AllocError>
    ensures { IfOk result (λ value. value ≡ property_of job.now name.now) }
{
    let default = default_of(job.declared(name));
    owned(alloc, given_value(job.given(), name).or(default))
}
